// Conversions: `rank lvalue const-int int`. `lvalue0` and `prvalue0` are literals 0.

use crate::types::read;
use case_texts::field;
use cpp_layout::below::{Cat, ClassRec, Ty, better, conversion_between, rank};
use std::alloc::{AllocError, Global};

/// The category of an expression.
pub fn category(word: &str) -> Cat {
    if word.starts_with("lvalue") {
        Cat::Lvalue
    } else {
        Cat::Prvalue
    }
}

/// The rank of a conversion: a category, a type and the type that it is converted to.
pub fn ranked(alloc: Global, classes: &[ClassRec], question: &str) -> Result<String, AllocError> {
    let how = field(question, ' ', 0);
    let from = read(alloc, field(question, ' ', 1))?;
    let to = read(alloc, field(question, ' ', 2))?;
    let found = rank(&from, category(how), how.ends_with('0'), &to, classes);
    format!(in alloc; "{found:?}")
}

// Whether the conversion to one type is better than that to another, if there are both.
fn is_better(how: &str, from: &Ty, to: &Ty, other: &Ty, classes: &[ClassRec]) -> Option<bool> {
    let is_zero = how.ends_with('0');
    let first = conversion_between(from, category(how), is_zero, to, classes)?;
    let second = conversion_between(from, category(how), is_zero, other, classes)?;
    Some(better(first, to, second, other))
}

/// Which of two conversions is better: a category, a type and the types that it is converted to.
pub fn compared(alloc: Global, classes: &[ClassRec], question: &str) -> Result<String, AllocError> {
    let how = field(question, ' ', 0);
    let from = read(alloc, field(question, ' ', 1))?;
    let to = read(alloc, field(question, ' ', 2))?;
    let other = read(alloc, field(question, ' ', 3))?;
    format!(in alloc; "{:?}", is_better(how, &from, &to, &other, classes))
}

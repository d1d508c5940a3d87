//! Types, classes, overload sets and layouts. A case is a line of the input, a word that says what is asked and what it is
//! asked of; its answer is a line of the output. Empty lines, and lines that begin with `#`, are no cases.
#![tactic(auto)]

mod classes;
mod conversions;
mod layouts;
mod overloads;
mod types;

use case_texts::is_case;
use cpp_layout::below::{ClassRec, Ty, copy, is_in_order, same, spell, trivially_copyable};
use std::alloc::{AllocError, Global};
use std::io;

// Whether a type is copied byte by byte, in classes that are in order.
fn is_copyable(ty: &Ty, classes: &[ClassRec]) -> bool {
    is_in_order(classes) && trivially_copyable(ty, classes)
}

// The answer to a word of a type.
fn asked(alloc: Global, classes: &[ClassRec], word: &str, ty: &Ty) -> Result<String, AllocError> {
    match word {
        "spell" => format!(in alloc; "{}", spell(alloc, ty, classes)?.escape_ascii()),
        "same" => format!(in alloc; "{}", same(ty, &copy(alloc, ty)?)),
        "copyable" => format!(in alloc; "{}", is_copyable(ty, classes)),
        _ => layouts::extent(alloc, ty, classes),
    }
}

// The answer to a case.
fn answer(alloc: Global, classes: &[ClassRec], case: &str) -> Result<String, AllocError> {
    let (word, rest) = case.split_once(' ').unwrap_or((case, ""));
    match word {
        "classes" => format!(in alloc; "{}", is_in_order(classes)),
        "rank" => conversions::ranked(alloc, classes, rest),
        "better" => conversions::compared(alloc, classes, rest),
        "choose" => overloads::chosen(alloc, classes, rest),
        "layout" => layouts::layout(alloc, classes, rest.parse::<u32>().unwrap_or(0)),
        "frame" => layouts::framed(alloc, classes, &types::read_all(alloc, rest, ' ')?),
        _ => asked(alloc, classes, word, &types::read(alloc, rest)?),
    }
}

// The answers to the cases of a text, a line each.
fn answers(alloc: Global, text: &str) -> Result<String, AllocError> {
    let mut lines = String::new(alloc);
    let mut classes = Vec::new(alloc);
    for case in text.lines() {
        if is_case(case) {
            if let Some(texts) = case.strip_prefix("classes ") {
                classes = classes::read(alloc, texts)?;
            }
            lines.push_str(&answer(alloc, &classes, case)?)?;
            lines.push_str("\n")?;
        }
    }
    Ok(lines)
}

fn main(rt: HostRuntime) -> io::Result<()> {
    let text = io::read_to_string(rt.alloc(), rt.reader())?;
    rt.print(answers(rt.alloc(), &text)?)
}

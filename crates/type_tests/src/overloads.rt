// Calls: `choose long|int <- prvalue:char`. A candidate is its parameters with commas between them, behind that of its object
// and a dot if it has one.

use crate::conversions::category;
use crate::types::{plain, read, read_all};
use cpp_layout::below::{ClassRec, FnTy, Shape};
use cpp_overload::calls::{Arg, Cand};
use cpp_overload::choice::choose;
use std::alloc::{AllocError, Global};

// A candidate.
fn candidate(alloc: Global, text: &str) -> Result<Cand, AllocError> {
    let (this, params) = match text.split_once('.') {
        Some((object, params)) => (Some(read(alloc, object)?), params),
        None => (None, text),
    };
    let params = read_all(alloc, params, ',')?;
    let ret = plain(Shape::Void);
    let safe = false;
    Ok(Cand {
        ty: FnTy { params, ret, safe },
        this,
    })
}

// The candidates.
fn candidates(alloc: Global, texts: &str) -> Result<Vec<Cand>, AllocError> {
    let mut made = Vec::new(alloc);
    for text in texts.split('|') {
        made.push(candidate(alloc, text)?)?;
    }
    Ok(made)
}

// The arguments, each with its category.
fn arguments(alloc: Global, texts: &str) -> Result<Vec<Arg>, AllocError> {
    let mut made = Vec::new(alloc);
    for text in texts.split(' ') {
        if let Some((how, word)) = text.split_once(':') {
            made.push(Arg {
                ty: read(alloc, word)?,
                cat: category(how),
                null_constant: false,
            })?;
        }
    }
    Ok(made)
}

/// The candidate that a call means, or why there is none.
pub fn chosen(alloc: Global, classes: &[ClassRec], question: &str) -> Result<String, AllocError> {
    let (left, right) = question.split_once(" <-").unwrap_or((question, ""));
    let cands = candidates(alloc, left)?;
    let args = arguments(alloc, right)?;
    if cands.len() > 9 {
        return format!(in alloc; "too many");
    }
    format!(in alloc; "{:?}", choose(&cands, &args, classes))
}

//! Code and objects. A case is a line of the input, a word that says what is asked and what it is asked of; its answer is a
//! line of the output.
#![tactic(auto)]

mod assembly;
mod objects;
mod tables;

use case_texts::{bytes_of, is_case};
use std::alloc::{AllocError, Global};
use std::io;

// The answer to a case.
fn answer(alloc: Global, case: &str) -> Result<String, AllocError> {
    let (word, rest) = case.split_once(' ').unwrap_or((case, ""));
    let text = bytes_of(alloc, rest)?;
    match word {
        "text" => assembly::answer(alloc, &text),
        "bytes" => assembly::bytes(alloc, &text),
        "print" => assembly::printed(alloc, &text),
        "again" => assembly::again(alloc, &text),
        "object" => objects::answer(alloc, &text),
        "fronts" => objects::fronts(alloc, &text),
        "changes" => objects::changes(alloc, &text),
        _ => tables::answer(alloc, word, &text),
    }
}

// The answers to the cases of a text, a line each.
fn answers(alloc: Global, text: &str) -> Result<String, AllocError> {
    let mut lines = String::new(alloc);
    for case in text.lines() {
        if is_case(case) {
            lines.push_str(&answer(alloc, case)?)?;
            lines.push_str("\n")?;
        }
    }
    Ok(lines)
}

fn main(rt: HostRuntime) -> io::Result<()> {
    let text = io::read_to_string(rt.alloc(), rt.reader())?;
    rt.print(answers(rt.alloc(), &text)?)
}

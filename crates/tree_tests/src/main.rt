//! Typed programs: whether they are safe, their nodes and their frames. A case is a line of the input, a word that says what is
//! asked; its answer is a line of the output.
#![tactic(auto)]

mod arena;
mod frames;
mod safety;

use case_texts::is_case;
use std::alloc::{AllocError, Global};
use std::io;

// The answer to a case.
fn answer(alloc: Global, case: &str) -> Result<String, AllocError> {
    match case {
        "sum" => arena::sum(alloc),
        "faults" => arena::faults(alloc),
        "frames" => frames::answer(alloc),
        "output-in-a-block" => safety::in_a_block(alloc),
        _ => safety::outside(alloc),
    }
}

// The answers to the cases of a text, a line each.
fn answers(alloc: Global, text: &str) -> Result<String, AllocError> {
    let mut lines = String::new(alloc);
    for case in text.lines() {
        if is_case(case) {
            lines.push_str(&answer(alloc, case)?)?;
            lines.push_str("\n")?;
        }
    }
    Ok(lines)
}

fn main(rt: HostRuntime) -> io::Result<()> {
    let text = io::read_to_string(rt.alloc(), rt.reader())?;
    rt.print(answers(rt.alloc(), &text)?)
}

//! Images: objects that are linked, verified and run. A case is a line of the input, a word that says what is asked and what
//! it is asked of; its answer is a line of the output.
#![tactic(auto)]

mod faults;
mod numbers;
mod races;
mod running;
mod texts;
mod verifying;

use case_texts::is_case;
use std::alloc::{AllocError, Global};
use std::io;

// The answer to a case.
fn answer(alloc: Global, case: &str) -> Result<String, AllocError> {
    let (word, rest) = case.split_once(' ').unwrap_or((case, ""));
    match word {
        "race" => races::answer(alloc, rest),
        "link" => faults::answer(alloc, rest),
        "run" => running::answer(alloc, rest, false),
        "trace" => running::answer(alloc, rest, true),
        "sound" => verifying::sound(alloc),
        "missing" => verifying::missing(alloc),
        _ => numbers::answer(alloc),
    }
}

// The answers to the cases of a text, a line each.
fn answers(alloc: Global, text: &str) -> Result<String, AllocError> {
    let mut lines = String::new(alloc);
    for case in text.lines() {
        if is_case(case) {
            lines.push_str(&answer(alloc, case)?)?;
            lines.push_str("\n")?;
        }
    }
    Ok(lines)
}

fn main(rt: HostRuntime) -> io::Result<()> {
    let text = io::read_to_string(rt.alloc(), rt.reader())?;
    rt.print(answers(rt.alloc(), &text)?)
}

//! Texts: their tokens, trees and names, and whole numbers. A case is a line of the input, a word that says what is asked
//! and what it is asked of; its answer is a line of the output. Empty lines, and lines that begin with `#`, are no cases.
#![tactic(auto)]

mod lookahead;
mod nodes;
mod numbers;
mod scopes;
mod texts;
mod trees;

use case_texts::is_case;
use std::alloc::{AllocError, Global};
use std::io;

// The answer to a case.
fn answer(alloc: Global, case: &str) -> Result<String, AllocError> {
    let (word, rest) = case.split_once(' ').unwrap_or((case, ""));
    match word {
        "number" => numbers::answer(alloc, rest),
        "scopes" => scopes::answer(alloc, rest),
        "nodes" => nodes::answer(alloc, rest),
        _ => texts::answer(alloc, word, rest),
    }
}

// The answers to the cases of a text, a line each.
fn answers(alloc: Global, text: &str) -> Result<String, AllocError> {
    let mut lines = String::new(alloc);
    for case in text.lines() {
        if is_case(case) {
            lines.push_str(&answer(alloc, case)?)?;
            lines.push_str("\n")?;
        }
    }
    Ok(lines)
}

fn main(rt: HostRuntime) -> io::Result<()> {
    let text = io::read_to_string(rt.alloc(), rt.reader())?;
    rt.print(answers(rt.alloc(), &text)?)
}

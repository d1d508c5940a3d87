//! The outside: words, schedules, generated programs, hosts and commands. A case is a line of the input, its answer a line of
//! the output.
#![tactic(auto)]

mod hosts;
mod steps;
mod texts;

use case_texts::is_case;
use std::alloc::{AllocError, Global};
use std::io;
use std::rt::Files;

// The answer to a case.
fn answer<F: Files, O: Print, E: Print>(
    files: &F,
    out: &O,
    err: &E,
    alloc: Global,
    case: &str,
) -> Result<String, AllocError> {
    let (word, rest) = case.split_once(' ').unwrap_or((case, ""));
    match word {
        "steady" => hosts::steady(alloc, rest),
        "memory" => hosts::memory(alloc, rest),
        "counted" => hosts::counted(files, alloc, rest),
        "real" => hosts::real(files, out, err, alloc, rest),
        _ => texts::answer(alloc, word, rest),
    }
}

fn main(rt: HostRuntime) -> io::Result<()> {
    let text = io::read_to_string(rt.alloc(), rt.reader())?;
    let (out, err) = (rt.stdout(), rt.stderr());
    for case in text.lines() {
        if is_case(case) {
            println!(rt; "{}", answer(&rt, &out, &err, rt.alloc(), case)?)?;
        }
    }
    Ok(())
}

//! The machine: the runtime and what it stands on. A case is a line of the input, its answer a line of the output.
#![tactic(auto)]

mod events;
mod holders;
mod logs;
mod memories;
mod policies;
mod runs;
mod turns;
mod worlds;

use case_texts::is_case;
use std::alloc::{AllocError, Global};
use std::io;

// The answer to a case.
fn answer(alloc: Global, case: &str) -> Result<String, AllocError> {
    let (word, rest) = case.split_once(' ').unwrap_or((case, ""));
    match word {
        "turns" => turns::answer(alloc, rest),
        "world" => worlds::answer(alloc, rest),
        "script" => worlds::kept(alloc),
        "run" => runs::ended(alloc, rest.parse::<u32>().unwrap_or(0)),
        "record" => runs::recorded(alloc),
        "holders" => holders::answer(alloc, rest),
        "log" => logs::answer(alloc, rest),
        "memory" => memories::answer(alloc, rest),
        _ => policies::answer(alloc, word, rest),
    }
}

// The answers to the cases of a text, a line each.
fn answers(alloc: Global, text: &str) -> Result<String, AllocError> {
    let mut lines = String::new(alloc);
    for case in text.lines() {
        if is_case(case) {
            lines.push_str(&answer(alloc, case)?)?;
            lines.push_str("\n")?;
        }
    }
    Ok(lines)
}

fn main(rt: HostRuntime) -> io::Result<()> {
    let text = io::read_to_string(rt.alloc(), rt.reader())?;
    rt.print(answers(rt.alloc(), &text)?)
}

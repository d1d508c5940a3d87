//! Programs by themselves, in which threads take turns. A case is a line of the input, a word that says what is asked and what it is asked of: `events` and
//! a name for all that the program in the file of that name does, of which the answer is several lines; `runs` and a name for what it writes and how it ends;
//! `turns` and a program for the threads of its entries; `stops`, a number of steps and a program for how it stops within them; `code` and a name for whether
//! its image is shown to be its code; `apart` and two programs for whether the image of the first is shown to be the code of the second.
#![tactic(auto)]

mod compiled;
mod lines;
mod programs;

use case_texts::is_case;
use std::{fs, io};

// The text of the program of this name.
fn text_of(rt: &HostRuntime, name: &str) -> io::Result<Vec<u8>> {
    let file = format!(in rt.alloc(); "{name}.cc")?;
    fs::read(rt, file.as_str())
}

// Adds the answer to a case.
fn add_answer(rt: &HostRuntime, lines: &mut String, case: &str) -> io::Result<()> {
    let (word, rest) = case.split_once(' ').unwrap_or((case, ""));
    if word == "events" {
        let text = text_of(rt, rest)?;
        lines.push_str(&programs::events(rt.alloc(), rest, text)?)?;
    } else if word == "runs" {
        let text = text_of(rt, rest)?;
        lines.push_str(&programs::runs(rt.alloc(), rest, text)?)?;
    } else if word == "turns" {
        lines.push_str(&programs::turns(rt.alloc(), rest)?)?;
    } else if word == "code" {
        let text = text_of(rt, rest)?;
        lines.push_str(&compiled::code(rt.alloc(), rest, text)?)?;
    } else if word == "apart" {
        lines.push_str(&compiled::apart(rt.alloc(), rest)?)?;
    } else {
        lines.push_str(&programs::stops(rt.alloc(), rest)?)?;
    }
    Ok(())
}

fn main(rt: HostRuntime) -> io::Result<()> {
    let text = io::read_to_string(rt.alloc(), rt.reader())?;
    let mut lines = String::new(rt.alloc());
    for line in text.lines() {
        if is_case(line) {
            add_answer(&rt, &mut lines, line)?;
        }
    }
    rt.print(lines)
}

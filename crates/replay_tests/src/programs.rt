// What a program does by itself.

use crate::lines::{event_line, stopped};
use case_texts::{add_word, bytes_of};
use source_verdict::{Verdict, verdict_of};
use src_bind::bind;
use src_link::{can_bind, choices};
use src_replay::{AloneRun, run_alone};
use std::alloc::{AllocError, Global};
use tx_safety::SafeProgram;

// The steps in which each program of the files comes to its end.
const ENOUGH: u32 = 400_000;

// The run of a program that is accepted, and none where it cannot be bound.
fn run_of_safe(
    alloc: Global,
    safe: &SafeProgram,
    most: u32,
) -> Result<Option<AloneRun>, AllocError> {
    let program = safe.program();
    if !can_bind(alloc, program)? {
        return Ok(None);
    }
    let choices = choices(alloc, safe)?;
    let bound = bind(alloc, program, &choices)?;
    Ok(Some(run_alone(alloc, &bound, &[], most)?))
}

// The run of the program with this text, without input. None where it is refused.
fn run_of_text(alloc: Global, text: Vec<u8>, most: u32) -> Result<Option<AloneRun>, AllocError> {
    let names = vec![in alloc; String::from_str(alloc, "a.cc")?]?;
    let texts = vec![in alloc; text]?;
    match verdict_of(alloc, names.as_slice(), texts.as_slice())? {
        Verdict::Accepted(safe) => run_of_safe(alloc, &safe, most),
        Verdict::Refused(_) => Ok(None),
    }
}

// Its events, a line each.
fn event_lines(alloc: Global, run: &AloneRun) -> Result<String, AllocError> {
    let mut lines = String::new(alloc);
    for event in &run.events {
        lines.push_str(&event_line(alloc, *event)?)?;
        lines.push_str("\n")?;
    }
    Ok(lines)
}

// Its output and how it stopped, a line each.
fn end_lines(alloc: Global, run: &AloneRun) -> Result<String, AllocError> {
    let mut lines = String::from_str(alloc, "out ")?;
    for byte in &run.out {
        lines.push_str(&format!(in alloc; "{byte:02x}")?)?;
    }
    let end = stopped(alloc, run.stopped)?;
    lines.push_str(&format!(in alloc; "\nend {end}\n")?)?;
    Ok(lines)
}

/// All that a program does, behind its name.
pub fn events(alloc: Global, name: &str, text: Vec<u8>) -> Result<String, AllocError> {
    let mut lines = format!(in alloc; "# {name}\n")?;
    match run_of_text(alloc, text, ENOUGH)? {
        Some(run) => {
            lines.push_str(&event_lines(alloc, &run)?)?;
            lines.push_str(&end_lines(alloc, &run)?)?;
        }
        None => lines.push_str("refused\n")?,
    }
    Ok(lines)
}

/// What a program writes and how it ends, behind its name.
pub fn runs(alloc: Global, name: &str, text: Vec<u8>) -> Result<String, AllocError> {
    let mut lines = format!(in alloc; "# {name}\n")?;
    match run_of_text(alloc, text, ENOUGH)? {
        Some(run) => lines.push_str(&end_lines(alloc, &run)?)?,
        None => lines.push_str("refused\n")?,
    }
    Ok(lines)
}

/// The threads of a program's entries, and how it stopped.
pub fn turns(alloc: Global, text: &str) -> Result<String, AllocError> {
    let text = bytes_of(alloc, text)?;
    match run_of_text(alloc, text, ENOUGH)? {
        Some(run) => {
            let mut line = String::new(alloc);
            for t in &run.order {
                add_word(&mut line, &format!(in alloc; "{t}")?)?;
            }
            let end = stopped(alloc, run.stopped)?;
            format!(in alloc; "{line}: {end}\n")
        }
        None => format!(in alloc; "refused\n"),
    }
}

/// How a program stops within some steps: how many it takes, and how many events there are.
pub fn stops(alloc: Global, case: &str) -> Result<String, AllocError> {
    let (most, text) = case.split_once(' ').unwrap_or((case, ""));
    let text = bytes_of(alloc, text)?;
    match run_of_text(alloc, text, most.parse::<u32>().unwrap_or(0))? {
        Some(run) => {
            let end = stopped(alloc, run.stopped)?;
            let count = run.events.len();
            format!(in alloc; "{end} after {} steps, {count} events\n", run.cost)
        }
        None => format!(in alloc; "refused\n"),
    }
}

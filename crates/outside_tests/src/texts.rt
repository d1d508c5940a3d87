// Words of commands, schedules, and generated programs: `words run a.cc`, `schedule 0*2$n`, `written 0 0`, `program 1`.

use case_texts::{bytes_of, words_of};
use schedules::{Schedule, ScheduleFault};
use std::alloc::{AllocError, Global};
use tx_words::Command;

// The command that the words of a line say.
fn said(alloc: Global, line: &str) -> Result<Option<Command>, AllocError> {
    if line.is_empty() {
        return tx_words::read(alloc, &[]);
    }
    tx_words::read(alloc, &words_of(alloc, line)?)
}

// A schedule that was read: its entries, or how many there are where there are many.
fn entries(alloc: Global, schedule: &Schedule) -> Result<String, AllocError> {
    if schedule.entries.len() > 100 {
        return format!(in alloc; "{} entries {}", schedule.entries.len(), schedule.has_more);
    }
    format!(in alloc; "{:?} {}", schedule.entries.as_slice(), schedule.has_more)
}

// What a text says as a schedule.
fn scheduled(alloc: Global, text: &str) -> Result<String, AllocError> {
    match schedules::read(alloc, &bytes_of(alloc, text)?) {
        Ok(schedule) => entries(alloc, &schedule),
        Err(ScheduleFault::BadSchedule { line }) => format!(in alloc; "line {line}"),
        Err(ScheduleFault::Memory) => format!(in alloc; "memory"),
    }
}

// The text of a schedule.
fn written(alloc: Global, line: &str) -> Result<String, AllocError> {
    let mut entries = Vec::new(alloc);
    for word in line.split(' ') {
        if let Ok(entry) = word.parse::<u8>() {
            entries.push(entry)?;
        }
    }
    format!(in alloc; "{}", schedules::write(alloc, &entries)?.escape_ascii())
}

// The program of a number, or no text where it has none.
fn generated(alloc: Global, number: &str) -> Result<Vec<u8>, AllocError> {
    match number.parse::<u32>() {
        Ok(number) if 1 <= number && number <= 400 => prog_gen::program(alloc, number),
        _ => Ok(Vec::new(alloc)),
    }
}

// Whether a text stands in the program of a number, where both are given.
fn stands_in(alloc: Global, question: &str) -> Result<bool, AllocError> {
    let (number, piece) = question.split_once(' ').unwrap_or((question, ""));
    let text = generated(alloc, number)?;
    let piece = bytes_of(alloc, piece)?;
    if piece.is_empty() {
        return Ok(false);
    }
    Ok(
        text.windows(piece.len())
            .any(|window| window == piece.as_slice()),
    )
}

// How many lines the program of a number has.
fn lines(alloc: Global, number: &str) -> Result<usize, AllocError> {
    let text = generated(alloc, number)?;
    Ok(text.iter().filter(|byte| **byte == b'\n').count())
}

/// The answer to a word.
pub fn answer(alloc: Global, word: &str, rest: &str) -> Result<String, AllocError> {
    match word {
        "words" => format!(in alloc; "{:?}", said(alloc, rest)?),
        "taken" => format!(in alloc; "{}", said(alloc, rest)?.is_some()),
        "schedule" => scheduled(alloc, rest),
        "written" => written(alloc, rest),
        "program" => format!(in alloc; "{}", generated(alloc, rest)?.escape_ascii()),
        "program-lines" => format!(in alloc; "{}", lines(alloc, rest)?),
        "program-has" => format!(in alloc; "{}", stands_in(alloc, rest)?),
        _ => format!(in alloc; "?"),
    }
}

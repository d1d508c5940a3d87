//! Logs of what words held: `log mark note:A:5 back:0 load:A` notes what the word A held, and goes back to the first mark.
//! A and B are the first words of a memory in which both hold 7.
ghost use Rattle.std.specs.Prelude.{◌≡◌};
ghost use Rattle.tx_events.specs.Memory.{can_access};
ghost use Rattle.tx_memory.specs.View.{layout_of};
ghost use Rattle.undo_log.specs.Notes.{can_put_back};

use case_texts::{add_word, field};
use std::alloc::{AllocError, Global};
use tx_memory::Memory;
use undo_log::{Log, Note};

const WORD: u64 = 65_536;

const OTHER: u64 = 65_544;

/// Whether the address names a word of the memory.
fn is_word(memory: &Memory, word: u64) -> bool
    ensures { result ≡ can_access (layout_of memory.now) word 8 }
{
    memory.load(word, 8).is_some()
}

/// Whether each note is of a word of the memory.
fn are_words(memory: &Memory, notes: &[Note]) -> bool
    ensures { result ≡ can_put_back (layout_of memory.now) notes.now }
{
    notes.iter().all(|n| is_word(memory, n.word))
}

fn mark(log: &mut Log) -> Result<usize, AllocError> {
    log.reserve(WORD)?;
    Ok(log.mark())
}

fn note(log: &mut Log, word: u64, old: u64) -> Result<(), AllocError> {
    log.reserve(word)?;
    if !log.marks().is_empty() {
        log.note(word, old);
    }
    Ok(())
}

fn drop_mark(log: &mut Log, mark: usize) {
    if mark < 9 && mark + 1 == log.marks().len() {
        log.drop_mark(mark);
    }
}

fn back_to(log: &mut Log, memory: &mut Memory, mark: usize) {
    if mark >= log.marks().len() {
        return;
    }
    let start = log.marks()[mark];
    if start > log.notes().len() {
        return;
    }
    let (_, since) = log.notes().split_at(start);
    if are_words(memory, since) {
        log.back_to(memory, mark);
    }
}

fn undo_word(log: &mut Log, memory: &mut Memory, word: u64) {
    if is_word(memory, word) {
        log.undo_word(memory, word);
    }
}

/// A memory in which both words hold 7.
fn sevens(alloc: Global) -> Result<Memory, AllocError> {
    let mut memory = Memory::new(alloc, &[], 16, 1)?;
    memory.store(WORD, 8, 7);
    memory.store(OTHER, 8, 7);
    Ok(memory)
}

fn undo_newest(log: &mut Log, memory: &mut Memory) -> Option<u64> {
    let count = log.marks().len();
    if count == 0 {
        return None;
    }
    let start = log.marks()[count - 1];
    if start > log.notes().len() {
        return None;
    }
    let (_, since) = log.notes().split_at(start);
    if are_words(memory, since) {
        log.undo_newest(memory)
    } else {
        None
    }
}

/// The word of a name.
fn word_of(name: &str) -> u64 {
    if name == "A" { WORD } else { OTHER }
}

/// A step that changes the log or the memory.
fn change(
    log: &mut Log,
    memory: &mut Memory,
    name: &str,
    place: &str,
    old: u64,
) -> Result<(), AllocError> {
    let number = place.parse::<usize>().unwrap_or(0);
    match name {
        "note" => note(log, word_of(place), old)?,
        "drop" => drop_mark(log, number),
        "back" => back_to(log, memory, number),
        "undo" => undo_word(log, memory, word_of(place)),
        "order" => log.order_newest(),
        "clear" => log.clear(),
        "restart" if !log.marks().is_empty() => log.start_over(),
        _ => {}
    }
    Ok(())
}

/// What is asked of the log or the memory.
fn asked(
    alloc: Global,
    log: &Log,
    memory: &Memory,
    name: &str,
    place: &str,
) -> Result<String, AllocError> {
    match name {
        "notes" => format!(in alloc; "{:?}", log.notes()),
        "marks" => format!(in alloc; "{:?}", log.marks()),
        _ => format!(in alloc; "{:?}", memory.load(word_of(place), 8)),
    }
}

/// The answers to the steps that have one.
pub fn answer(alloc: Global, steps: &str) -> Result<String, AllocError> {
    let mut memory = sevens(alloc)?;
    let mut log = Log::new(alloc);
    let mut line = String::new(alloc);
    for step in steps.split(' ') {
        let name = field(step, ':', 0);
        let place = field(step, ':', 1);
        let old = field(step, ':', 2).parse::<u64>().unwrap_or(0);
        match name {
            "mark" => add_word(&mut line, &format!(in alloc; "{}", mark(&mut log)?)?)?,
            "newest" => {
                let word = undo_newest(&mut log, &mut memory);
                add_word(&mut line, &format!(in alloc; "{word:?}")?)?;
            }
            "notes" | "marks" | "load" => {
                add_word(&mut line, &asked(alloc, &log, &memory, name, place)?)?;
            }
            _ => change(&mut log, &mut memory, name, place, old)?,
        }
    }
    Ok(line)
}

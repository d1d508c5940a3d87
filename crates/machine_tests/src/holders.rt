//! Who holds which word: `holders 3 read:0:65536 holds:0:65536` is a table of three threads, of which 0 takes a word.
ghost use Rattle.std.specs.Prelude.{◌≡◌, ◌<◌};
ghost use Rattle.own_table.specs.Table.{thread_limit};

use case_texts::{add_word, field};
use own_table::{Holders, Mode};
use std::alloc::{AllocError, Global};

/// Takes the hold where no other thread blocks it, and answers whether that was so.
fn hold(holders: &mut Holders, word: u64, t: u8, mode: Mode) -> Result<bool, AllocError>
    requires { t < thread_limit holders.old }
    ensures { thread_limit holders.new ≡ thread_limit holders.old }
{
    holders.reserve(word)?;
    let is_free = holders.blockers(word, t, mode.is_write()) == 0;
    if is_free {
        holders.take(word, t, mode);
    }
    Ok(is_free)
}

/// A step of a thread: a word, the thread and a word of the memory.
fn taken(
    alloc: Global,
    holders: &mut Holders,
    threads: u8,
    text: &str,
) -> Result<String, AllocError>
    requires limit { thread_limit holders.old ≡ threads }
    ensures limit { thread_limit holders.new ≡ thread_limit holders.old }
{
    let name = field(text, ':', 0);
    let t = field(text, ':', 1).parse::<u8>().unwrap_or(0);
    let word = field(text, ':', 2).parse::<u64>().unwrap_or(0);
    if t >= threads {
        return format!(in alloc; "no-thread");
    }
    match name {
        "read" => format!(in alloc; "{}", hold(holders, word, t, Mode::Read)?),
        "write" => format!(in alloc; "{}", hold(holders, word, t, Mode::Write)?),
        "release" => format!(in alloc; "{:?}", holders.release_one(t)),
        "holds" => format!(in alloc; "{:?}", holders.holds(word, t)),
        "before-load" => format!(in alloc; "{}", holders.blockers(word, t, false)),
        "before-store" => format!(in alloc; "{}", holders.blockers(word, t, true)),
        "stripe" => format!(in alloc; "{:?}", holders.stripe(u16::from(t))),
        _ => format!(in alloc; "{}", holders.stripe(u16::from(t)).len()),
    }
}

/// The answers to the steps of so many threads.
pub fn answer(alloc: Global, case: &str) -> Result<String, AllocError> {
    let (threads, steps) = case.split_once(' ').unwrap_or((case, ""));
    let threads = threads.parse::<u8>().unwrap_or(0);
    let mut line = String::new(alloc);
    if threads == 0 || threads > 64 {
        return Ok(line);
    }
    let mut holders = Holders::new(alloc, threads)?;
    for step in steps.split(' ') {
        let answer = taken(alloc, &mut holders, threads, step)?;
        add_word(&mut line, &answer)?;
    }
    Ok(line)
}

//! The reader of schedules.
ghost use Rattle.std.specs.Prelude.{◌≡◌, ◌≢◌, ◌≤◌, ◌++◌, ◌∷◌, [], ℕ, List};
ghost use Rattle.std.specs.Prelude.{true, length, vec_len, decimal, replicate, MatchOption, OnOk};
ghost use Rattle.schedules.specs.Text.{count_text, line_text, is_line, IsCount, IsMany, Keeps, Outcome, most_entries};
ghost use Rattle.schedules.specs.declared.Run.{Run as Runs};

use crate::number::number_at;
use crate::{Run, Schedule, ScheduleFault};
use std::alloc::{AllocError, Global};
use tx_events::THREAD_LIMIT;

/// The last of the thread numbers.
const LAST_THREAD: u32 = THREAD_LIMIT as u32 - 1;

/// The most turns that a line may stand for.
const MOST_TURNS: u32 = 4_000_000;

/// The most entries that are kept of a schedule.
const MOST_ENTRIES: usize = 4_000_000;

/// A line of the text and what follows it.
#[derive(Clone, Copy)]
struct Line<'a> {
    run: Run,
    rest: &'a [u8],
}

/// The end of a line, from behind its thread, and what follows it.
#[derive(Clone, Copy)]
struct Count<'a> {
    count: u32,
    rest: &'a [u8],
}

/// What follows this byte at the front of a text.
fn after(text: &[u8], byte: u8) -> Option<&[u8]>
    ensures { MatchOption result ((rest : List ℕ) → text.now ≢ byte ∷ rest) (λ rest. text.now ≡ byte ∷ rest.now) }
{
    match text.split_first() {
        Some((first, rest)) if *first == byte => Some(rest),
        _ => None,
    }
}

/// The number of turns at the end of a line.
fn count_at(text: &[u8]) -> Option<Count<'_>>
    ensures { MatchOption result ((n : ℕ) (rest : List ℕ) → IsCount n → text.now ≢ count_text n ++ 10 ∷ rest)
        (λ c. IsCount c.count × (text.now ≡ count_text c.count ++ 10 ∷ c.rest.now)) }
{
    match after(text, b'\n') {
        Some(rest) => Some(Count { count: 1, rest }),
        None => starred(text),
    }
}

/// The end of a line that stands for several turns.
fn starred(text: &[u8]) -> Option<Count<'_>>
    ensures { MatchOption result ((n : ℕ) (rest : List ℕ) → IsMany n → text.now ≢ 42 ∷ (decimal n ++ 10 ∷ rest))
        (λ c. IsMany c.count × (text.now ≡ 42 ∷ (decimal c.count ++ 10 ∷ c.rest.now))) }
{
    let Some(digits) = after(text, b'*') else {
        return None;
    };
    let Some(number) = number_at(digits, MOST_TURNS) else {
        return None;
    };
    if number.value < 2 {
        return None;
    }
    match after(number.rest, b'\n') {
        Some(rest) => Some(Count {
            count: number.value,
            rest,
        }),
        None => None,
    }
}

/// The line at the front of a text.
fn line_at(text: &[u8]) -> Option<Line<'_>>
    ensures { MatchOption result ((r : Runs) (rest : List ℕ) → is_line r ≡ true → text.now ≢ line_text r ++ rest)
        (λ l. (is_line l.run ≡ true) × (text.now ≡ line_text l.run ++ l.rest.now)) }
{
    let Some(thread) = number_at(text, LAST_THREAD) else {
        return None;
    };
    let Some(end) = count_at(thread.rest) else {
        return None;
    };
    let run = Run {
        thread: thread.value as u8,
        count: end.count,
    };
    Some(Line {
        run,
        rest: end.rest,
    })
}

/// Adds the turns of a line, as far as there is a place for them among the first `most`.
fn add(schedule: &mut Schedule, run: Run, most: usize) -> Result<(), AllocError>
    requires { vec_len schedule.old.entries ≤ most }
    ensures { OnOk result ((entries : List ℕ) → Keeps most entries schedule.old → Keeps most (entries ++ replicate run.count run.thread) schedule.new) }
{
    let len = schedule.entries.len();
    let count = run.count as usize;
    let left = most - len;
    if left < count {
        schedule.has_more = true;
        schedule.entries.resize(most, run.thread)
    } else {
        schedule.entries.resize(len + count, run.thread)
    }
}

/// The schedule of a text, of which the first `most` entries are kept.
fn read_first(alloc: Global, text: &[u8], most: usize) -> Result<Schedule, ScheduleFault>
    ensures { Outcome most text.now result }
{
    let mut schedule = Schedule {
        entries: Vec::new(alloc),
        has_more: false,
    };
    let mut rest = text;
    let mut number: usize = 0;
    'lines: while !rest.is_empty() {
        number += 1;
        let Some(line) = line_at(rest) else {
            return Err(ScheduleFault::BadSchedule { line: number });
        };
        if add(&mut schedule, line.run, most).is_err() {
            return Err(ScheduleFault::Memory);
        }
        rest = line.rest;
    }
    Ok(schedule)
}

/// The schedule of a text: its first 4,000,000 entries, and whether it has more.
///
/// A text with a line outside the grammar is `BadSchedule` at the first such line. A last line without a newline is one.
pub fn read(alloc: Global, text: &[u8]) -> Result<Schedule, ScheduleFault>
    ensures { Outcome most_entries text.now result }
{
    read_first(alloc, text, MOST_ENTRIES)
}

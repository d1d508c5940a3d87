//! The words of a trace's races.
ghost use Rattle.std.specs.Prelude.{◌≡◌, ℕ, ◌<◌, ◌≤◌, ◌+◌, ◌^◌, IfOk, OnOk, Some, length, slice_get};
ghost use Rattle.race_check.specs.Marks.{IsPiece, Racing, late_at};
ghost use Rattle.race_check.specs.Races.{Ascending, Races};
ghost use Rattle.race_check.specs.Regular.{Regular, end_of};
ghost use Rattle.race_check.specs.Words.{WordsOf};
ghost use Rattle.race_check.specs.Blocks.{Blocked};
ghost use Rattle.race_check.specs.Clocks.{Clocked, Reached};

use crate::blocks::Blocks;
use crate::clocks::Clocks;
use crate::items::{bytes_of, is_write, item_at};
use crate::marks::{Marks, Seen};
use crate::pieces::piece_end;
use crate::rows::Row;
use crate::words::add_word;
use std::alloc::{AllocError, Global};
use tx_events::{Item, What};

// Adds the word of a piece, if another thread is marked in it with an item that the row does not count.
fn add_piece(
    words: &mut Vec<u64>,
    marks: &Marks,
    row: &Row,
    t: u8,
    at: u64,
    end: u64,
) -> Result<(), AllocError>
    requires ascending { Ascending words.old.items }
    requires piece { IsPiece at end }
    ensures { OnOk result (WordsOf (λ x. (at ≤ x) × (x < end) × late_at marks.now row.now.latest t x) words.old.items words.new.items) }
{
    if !marks.is_late(row, t, at, end) {
        return Ok(());
    }
    add_word(words, 8 * (at / 8))?;
    Ok(())
}

// Adds the words of those of these bytes.
fn add_late(
    words: &mut Vec<u64>,
    marks: &Marks,
    row: &Row,
    t: u8,
    from: u64,
    to: u64,
) -> Result<(), AllocError>
    requires { Ascending words.old.items }
    ensures { OnOk result (WordsOf (λ x. (from ≤ x) × (x < to) × late_at marks.now row.now.latest t x) words.old.items words.new.items) }
{
    let mut at = from;
    'pieces: while at < to {
        let end = piece_end(at, to);
        add_piece(words, marks, row, t, at, end)?;
        at = end;
    }
    Ok(())
}

// Adds the words at which the item races with an item before it, where this is its row.
fn add_races(words: &mut Vec<u64>, seen: &Seen, row: &Row, item: Item) -> Result<(), AllocError>
    requires ascending { Ascending words.old.items }
    requires end { end_of item.what < 2 ^ 64 }
    ensures { OnOk result (WordsOf (Racing seen.now row.now.latest item) words.old.items words.new.items) }
{
    let bytes = bytes_of(item.what);
    add_late(words, &seen.writes, row, item.t, bytes.from, bytes.to)?;
    if !is_write(item.what) {
        return Ok(());
    }
    add_late(words, &seen.reads, row, item.t, bytes.from, bytes.to)?;
    Ok(())
}

// The row of the thread of item `j` becomes that of the item, by what the items before it leave.
fn reach(items: &[Item], clocks: &mut Clocks, blocks: &Blocks, item: Item, j: usize)
    requires regular { Regular items.now }
    requires there { slice_get items.now j ≡ Some item }
    requires within { j < length items.now }
    requires clocked { Clocked items.now clocks.old j }
    requires blocked { Blocked items.now blocks.now j }
    ensures { Reached items.now clocks.new j item.t }
{
    match item.what {
        What::Joined { child } => clocks.join(items, item, j, child),
        What::Enter => clocks.enter(items, item, j, blocks),
        What::Read { .. } | What::Write { .. } | What::Leave | What::Spawned { .. } => {}
    }
}

/// The words of the races of a trace, ascending and distinct.
pub fn races(alloc: Global, items: &[Item]) -> Result<Vec<u64>, AllocError>
    requires { Regular items.now }
    ensures { IfOk result (λ words. Races items.now words.items) }
{
    let mut clocks = Clocks::new(alloc)?;
    let mut blocks = Blocks::new(alloc);
    let mut seen = Seen::new(alloc);
    let mut words = Vec::new(alloc);
    'items: for j in 0..items.len() {
        let item = item_at(items, j);
        reach(items, &mut clocks, &blocks, item, j);
        add_races(&mut words, &seen, clocks.row(item.t), item)?;
        seen.put(items, item, j)?;
        clocks.put(items, item, j);
        blocks.put(items, item, j, clocks.row(item.t))?;
    }
    Ok(words)
}

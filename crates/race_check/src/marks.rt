//! For each byte and thread, the latest of its items that access the byte.
ghost use Rattle.std.specs.Prelude.{◌≡◌, ℕ, ◌<◌, ◌≤◌, ◌+◌, ◌^◌, true, false, OnOk, Some, length, slice_get, slice_index};
ghost use Rattle.race_check.specs.Marks.{GathersFrom, IsPiece, Marked, cell, late_at, lone, mark};
ghost use Rattle.race_check.specs.Regular.{Regular};
ghost use Rattle.race_check.specs.Rows.{Greater};
ghost use Rattle.tx_events.specs.declared.TheConstants.{THREAD_LIMIT};

use crate::items::{bytes_of, is_write};
use crate::pieces::piece_end;
use crate::rows::Row;
use crate::tables::Table;
use std::alloc::{AllocError, Global};
use tx_events::Item;

/// A row for each group of four bytes, for accesses to all of it, and one for each byte, for those to parts of a group. What is marked at a byte is the
/// greater of both.
#[derive(Drop)]
pub(crate) struct Marks {
    pub(crate) groups: Table,
    pub(crate) bytes: Table,
}

/// The latest reads and writes.
#[derive(Drop)]
pub(crate) struct Seen {
    pub(crate) reads: Marks,
    pub(crate) writes: Marks,
}

impl Marks {
    pub(crate) fn new(alloc: Global) -> Marks
        ensures { (x t : ℕ) → mark result x t ≡ 0 }
    {
        Marks {
            groups: Table::new(alloc),
            bytes: Table::new(alloc),
        }
    }

    // The bytes of a piece have at least this mark for a thread.
    fn raise_piece(&mut self, at: u64, end: u64, t: usize, value: usize) -> Result<(), AllocError>
        requires piece { IsPiece at end }
        requires thread { t < THREAD_LIMIT }
        ensures there { OnOk result ((x : ℕ) → at ≤ x → x < end → Greater (mark self.old x) (lone t value) (mark self.new x)) }
        ensures others { OnOk result ((x s : ℕ) → (at ≤ x → x < end → ⊥) → mark self.new x s ≡ mark self.old x s) }
    {
        if end - at == 4 {
            self.groups.raise(at / 4, t, value)?;
            return Ok(());
        }
        self.bytes.raise(at, t, value)?;
        Ok(())
    }

    /// Each of these bytes has at least this mark for a thread.
    fn raise_all(&mut self, from: u64, to: u64, t: usize, value: usize) -> Result<(), AllocError>
        requires { t < THREAD_LIMIT }
        ensures there { OnOk result ((x : ℕ) → from ≤ x → x < to → Greater (mark self.old x) (lone t value) (mark self.new x)) }
        ensures others { OnOk result ((x s : ℕ) → (from ≤ x → x < to → ⊥) → mark self.new x s ≡ mark self.old x s) }
    {
        let mut at = from;
        'pieces: while at < to {
            let end = piece_end(at, to);
            self.raise_piece(at, end, t, value)?;
            at = end;
        }
        Ok(())
    }

    // The rows of the bytes of a piece count what this one counts too.
    fn add_piece(&mut self, at: u64, end: u64, row: &Row) -> Result<(), AllocError>
        requires { IsPiece at end }
        ensures there { OnOk result ((x : ℕ) → at ≤ x → x < end → Greater (mark self.old x) (slice_index row.now.latest) (mark self.new x)) }
        ensures others { OnOk result ((x s : ℕ) → (at ≤ x → x < end → ⊥) → mark self.new x s ≡ mark self.old x s) }
    {
        if end - at == 4 {
            self.groups.add(at / 4, row)?;
            return Ok(());
        }
        self.bytes.add(at, row)?;
        Ok(())
    }

    /// The rows of these bytes count what this one counts too.
    pub(crate) fn add_all(&mut self, from: u64, to: u64, row: &Row) -> Result<(), AllocError>
        ensures there { OnOk result ((x : ℕ) → from ≤ x → x < to → Greater (mark self.old x) (slice_index row.now.latest) (mark self.new x)) }
        ensures others { OnOk result ((x s : ℕ) → (from ≤ x → x < to → ⊥) → mark self.new x s ≡ mark self.old x s) }
    {
        let mut at = from;
        'pieces: while at < to {
            let end = piece_end(at, to);
            self.add_piece(at, end, row)?;
            at = end;
        }
        Ok(())
    }

    // The row counts what the rows of these single bytes count too.
    fn add_bytes(&self, row: &mut Row, from: u64, to: u64)
        ensures { GathersFrom (cell self.now.bytes) from to (slice_index row.old.latest) (slice_index row.new.latest) }
    {
        'bytes: for byte in from..to {
            self.bytes.add_to(row, byte);
        }
    }

    // The row counts what the rows of the bytes of a piece count too.
    fn add_from_piece(&self, row: &mut Row, at: u64, end: u64)
        requires { IsPiece at end }
        ensures { GathersFrom (mark self.now) at end (slice_index row.old.latest) (slice_index row.new.latest) }
    {
        self.groups.add_to(row, at / 4);
        self.add_bytes(row, at, end);
    }

    /// The row counts what the rows of these bytes count too.
    pub(crate) fn add_to(&self, row: &mut Row, from: u64, to: u64)
        ensures { GathersFrom (mark self.now) from to (slice_index row.old.latest) (slice_index row.new.latest) }
    {
        let mut at = from;
        'pieces: while at < to {
            let end = piece_end(at, to);
            self.add_from_piece(row, at, end);
            at = end;
        }
    }

    /// Another thread is marked at a byte of a piece with an item that the row does not count.
    pub(crate) fn is_late(&self, row: &Row, t: u8, at: u64, end: u64) -> bool
        requires { IsPiece at end }
        ensures yes { result ≡ true → (x : ℕ) × (at ≤ x) × (x < end) × late_at self.now row.now.latest t x }
        ensures no { result ≡ false → (x : ℕ) → at ≤ x → x < end → late_at self.now row.now.latest t x → ⊥ }
    {
        if self.groups.is_late(row, t, at / 4) {
            return true;
        }
        'bytes: for byte in at..end {
            if self.bytes.is_late(row, t, byte) {
                return true;
            }
        }
        false
    }
}

impl Seen {
    pub(crate) fn new(alloc: Global) -> Seen
        ensures reads { (x t : ℕ) → mark result.reads x t ≡ 0 }
        ensures writes { (x t : ℕ) → mark result.writes x t ≡ 0 }
    {
        Seen {
            reads: Marks::new(alloc),
            writes: Marks::new(alloc),
        }
    }

    /// Marks the item at this index.
    pub(crate) fn put(&mut self, items: &[Item], item: Item, index: usize) -> Result<(), AllocError>
        requires regular { Regular items.now }
        requires there { slice_get items.now index ≡ Some item }
        requires within { index < length items.now }
        requires so_far { Marked items.now self.old index }
        ensures { OnOk result (Marked items.now self.new (index + 1)) }
    {
        let bytes = bytes_of(item.what);
        let t = usize::from(item.t);
        if is_write(item.what) {
            self.writes.raise_all(bytes.from, bytes.to, t, index + 1)?;
            return Ok(());
        }
        self.reads.raise_all(bytes.from, bytes.to, t, index + 1)?;
        Ok(())
    }
}

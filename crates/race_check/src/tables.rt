//! Rows by numbers.
ghost use Rattle.std.specs.Prelude.{◌≡◌, ℕ, ◌<◌, true, false, None, OnOk, length, slice_index};
ghost use Rattle.std.specs.BTreeMap.{get};
ghost use Rattle.std.specs.Ordering.{nat_cmp};
ghost use Rattle.race_check.specs.Marks.{Late, Raised, cell};
ghost use Rattle.race_check.specs.Rows.{Greater};
ghost use Rattle.tx_events.specs.declared.TheConstants.{THREAD_LIMIT};

use crate::rows::{Row, THREADS, empty_row};
use std::alloc::{AllocError, Global};
use std::collections::BTreeMap;

/// A row for each number that has one: for each thread, one more than the index of an item, 0 where there is none.
#[derive(Drop)]
pub(crate) struct Table {
    pub(crate) rows: BTreeMap<u64, Row>,
}

// A thread but this one has a mark above the row's counter.
fn is_above(marks: &[usize], row: &[usize], t: usize) -> bool
    requires { length marks.now ≡ length row.now }
    ensures yes { result ≡ true → Late (slice_index marks.now) row.now t }
    ensures no { result ≡ false → Late (slice_index marks.now) row.now t → ⊥ }
{
    'threads: for s in 0..row.len() {
        if marks[s] <= row[s] {
            continue;
        }
        if s != t {
            return true;
        }
    }
    false
}

// At least this value for a thread.
fn raise_in(row: &mut [usize], t: usize, value: usize)
    requires { t < length row.old }
    ensures size { length row.new ≡ length row.old }
    ensures raised { Raised t value (slice_index row.old) (slice_index row.new) }
{
    if row[t] < value {
        row[t] = value;
    }
}

impl Table {
    pub(crate) fn new(alloc: Global) -> Table
        ensures { (key t : ℕ) → cell result key t ≡ 0 }
    {
        Table {
            rows: BTreeMap::new(alloc),
        }
    }

    /// Row `key` counts what this one counts too.
    pub(crate) fn add(&mut self, key: u64, row: &Row) -> Result<(), AllocError>
        ensures there { OnOk result (Greater (cell self.old key) (slice_index row.now.latest) (cell self.new key)) }
        ensures others { OnOk result ((k s : ℕ) → (k ≡ key → ⊥) → cell self.new k s ≡ cell self.old k s) }
    {
        if let Some(there) = self.rows.get_mut(&key) {
            there.add(row);
            return Ok(());
        }
        self.copy(key, row)
    }

    // The number gets a row that counts what this one counts.
    fn copy(&mut self, key: u64, row: &Row) -> Result<(), AllocError>
        requires { get nat_cmp self.old.rows key ≡ None }
        ensures there { OnOk result (Greater (cell self.old key) (slice_index row.now.latest) (cell self.new key)) }
        ensures others { OnOk result ((k s : ℕ) → (k ≡ key → ⊥) → cell self.new k s ≡ cell self.old k s) }
    {
        self.rows.insert(key, *row)?;
        Ok(())
    }

    /// Row `key` has at least this value for a thread.
    pub(crate) fn raise(&mut self, key: u64, t: usize, value: usize) -> Result<(), AllocError>
        requires { t < THREAD_LIMIT }
        ensures there { OnOk result (Raised t value (cell self.old key) (cell self.new key)) }
        ensures others { OnOk result ((k s : ℕ) → (k ≡ key → ⊥) → cell self.new k s ≡ cell self.old k s) }
    {
        if let Some(there) = self.rows.get_mut(&key) {
            raise_in(&mut there.latest, t, value);
            return Ok(());
        }
        self.begin(key, t, value)
    }

    // The number gets a row, with this value for a thread.
    fn begin(&mut self, key: u64, t: usize, value: usize) -> Result<(), AllocError>
        requires thread { t < THREAD_LIMIT }
        requires absent { get nat_cmp self.old.rows key ≡ None }
        ensures there { OnOk result (Raised t value (cell self.old key) (cell self.new key)) }
        ensures others { OnOk result ((k s : ℕ) → (k ≡ key → ⊥) → cell self.new k s ≡ cell self.old k s) }
    {
        let mut row = empty_row();
        raise_in(&mut row.latest, t, value);
        self.rows.insert(key, row)?;
        Ok(())
    }

    /// The row counts what row `key` counts too.
    pub(crate) fn add_to(&self, row: &mut Row, key: u64)
        ensures { Greater (slice_index row.old.latest) (cell self.now key) (slice_index row.new.latest) }
    {
        match self.rows.get(&key) {
            None => {}
            Some(other) => row.add(other),
        }
    }

    /// Another thread is marked in row `key` with an item that the row does not count.
    pub(crate) fn is_late(&self, row: &Row, t: u8, key: u64) -> bool
        ensures yes { result ≡ true → Late (cell self.now key) row.now.latest t }
        ensures no { result ≡ false → Late (cell self.now key) row.now.latest t → ⊥ }
    {
        match self.rows.get(&key) {
            None => false,
            Some(marks) => is_above(&marks.latest, &row.latest, usize::from(t)),
        }
    }
}

//! For each thread, what is ordered before its next item by its own items and its start.
ghost use Rattle.std.specs.Prelude.{◌≡◌, ℕ, ◌<◌, ◌≤◌, ◌+◌, ◌^◌, ◌⊎◌, IfOk, true, false, List, Some, length, slice_get, slice_index, slice_index_or};
ghost use Rattle.tx_events.specs.declared.Item.{Item};
ghost use Rattle.tx_events.specs.declared.What.TheVariants.{Enter, Joined, Spawned};
ghost use Rattle.race_check.specs.Blocks.{Blocked};
ghost use Rattle.race_check.specs.Clocks.{Clocked, Reached, row_at, row_in};
ghost use Rattle.race_check.specs.Regular.{Regular};
ghost use Rattle.race_check.specs.Rows.{Down, Greater};
ghost use Rattle.tx_events.specs.declared.TheConstants.{THREAD_LIMIT};

use crate::blocks::Blocks;
use crate::rows::{Row, THREADS, add_item, empty_row};
use std::alloc::{AllocError, Global};
use tx_events::{Item, What};

/// For each thread, the row of its items so far and of what starts it, and whether it has items so far.
#[derive(Drop)]
pub(crate) struct Clocks {
    pub(crate) rows: Vec<Row>,
    pub(crate) begun: Vec<bool>,
}

// A row for each thread that counts nothing.
fn empty_rows(alloc: Global) -> Result<Vec<Row>, AllocError>
    ensures size { IfOk result (λ rows. length rows.items ≡ THREAD_LIMIT) }
    ensures zero { IfOk result (λ rows. (t s : ℕ) → row_in rows.items t s ≡ 0) }
{
    let row = empty_row();
    let rows = vec![in alloc; row; THREADS]?;
    Ok(rows)
}

// No thread has items.
fn none_begun(alloc: Global) -> Result<Vec<bool>, AllocError>
    ensures size { IfOk result (λ begun. length begun.items ≡ THREAD_LIMIT) }
    ensures none { IfOk result (λ begun. (t : ℕ) → slice_index_or begun.items t false ≡ false) }
{
    let begun = vec![in alloc; false; THREADS]?;
    Ok(begun)
}

// Row `t` counts what row `other` counts too.
fn add_at(rows: &mut Vec<Row>, t: u8, other: u8)
    requires within { t < length rows.old.items }
    requires other { other < length rows.old.items }
    ensures size { length rows.new.items ≡ length rows.old.items }
    ensures there { Greater (row_in rows.old.items t) (row_in rows.old.items other) (row_in rows.new.items t) }
    ensures others { (u s : ℕ) → (u ≡ t → ⊥) → row_in rows.new.items u s ≡ row_in rows.old.items u s }
{
    let more = rows[usize::from(other)];
    let row = &mut rows[usize::from(t)];
    row.add(&more);
}

// Row `t` counts item `p` of thread `t` too.
fn count_at(rows: &mut Vec<Row>, t: u8, p: usize)
    requires within { t < length rows.old.items }
    requires thread { t < THREAD_LIMIT }
    requires fits { p + 1 < 2 ^ 64 }
    ensures size { length rows.new.items ≡ length rows.old.items }
    ensures kept { (s : ℕ) → row_in rows.old.items t s ≤ row_in rows.new.items t s }
    ensures gained { p < row_in rows.new.items t t }
    ensures only { (s : ℕ) → (row_in rows.new.items t s ≡ row_in rows.old.items t s) ⊎ ((s ≡ t) × (row_in rows.new.items t s ≡ p + 1)) }
    ensures others { (u s : ℕ) → (u ≡ t → ⊥) → row_in rows.new.items u s ≡ row_in rows.old.items u s }
{
    let row = &mut rows[usize::from(t)];
    add_item(&mut row.latest, usize::from(t), p);
}

// If it starts a thread, that thread's row counts what row `t` counts too.
fn put_start(rows: &mut Vec<Row>, what: What, t: u8)
    requires size { length rows.old.items ≡ THREAD_LIMIT }
    requires within { t < THREAD_LIMIT }
    ensures size { length rows.new.items ≡ THREAD_LIMIT }
    ensures there { (child : ℕ) → what ≡ Spawned child → child < THREAD_LIMIT → Greater (row_in rows.old.items child) (row_in rows.old.items t) (row_in rows.new.items child) }
    ensures others { (u s : ℕ) → (what ≡ Spawned u → ⊥) → row_in rows.new.items u s ≡ row_in rows.old.items u s }
{
    match what {
        What::Spawned { child } => {
            if usize::from(child) < THREADS {
                add_at(rows, child, t);
            }
        }
        What::Read { .. } | What::Write { .. } | What::Enter | What::Leave | What::Joined { .. } =>
            {}
    }
}

// The thread has an item.
fn begin(begun: &mut Vec<bool>, t: u8)
    requires { t < length begun.old.items }
    ensures size { length begun.new.items ≡ length begun.old.items }
    ensures there { slice_index_or begun.new.items t false ≡ true }
    ensures others { (u : ℕ) → (u ≡ t → ⊥) → slice_index_or begun.new.items u false ≡ slice_index_or begun.old.items u false }
{
    begun[usize::from(t)] = true;
}

impl Clocks {
    pub(crate) fn new(alloc: Global) -> Result<Clocks, AllocError>
        ensures { IfOk result (λ clocks. (items : List Item) → Clocked items clocks 0) }
    {
        let rows = empty_rows(alloc)?;
        let begun = none_begun(alloc)?;
        Ok(Clocks { rows, begun })
    }

    // The thread has items so far.
    fn is_begun(&self, t: u8) -> bool
        requires { t < length self.now.begun.items }
        ensures { result ≡ slice_index_or self.now.begun.items t false }
    {
        self.begun[usize::from(t)]
    }

    /// The row of a thread.
    pub(crate) fn row(&self, t: u8) -> &Row
        requires { t < length self.now.rows.items }
        ensures { result.now.latest ≡ row_at self.now.rows.items t }
    {
        &self.rows[usize::from(t)]
    }

    /// At a join, the items of the child are counted too, if there are any.
    pub(crate) fn join(&mut self, items: &[Item], item: Item, j: usize, child: u8)
        requires regular { Regular items.now }
        requires there { slice_get items.now j ≡ Some item }
        requires joins { item.what ≡ Joined child }
        requires so_far { Clocked items.now self.old j }
        ensures { Reached items.now self.new j item.t }
    {
        let t = usize::from(child);
        if t >= THREADS {
            return;
        }
        if !self.is_begun(child) {
            return;
        }
        add_at(&mut self.rows, item.t, child);
    }

    /// At an Enter, the blocks that conflict with the block are counted too.
    pub(crate) fn enter(&mut self, items: &[Item], item: Item, j: usize, blocks: &Blocks)
        requires regular { Regular items.now }
        requires there { slice_get items.now j ≡ Some item }
        requires within { j < length items.now }
        requires enters { item.what ≡ Enter }
        requires so_far { Clocked items.now self.old j }
        requires blocked { Blocked items.now blocks.now j }
        ensures { Reached items.now self.new j item.t }
    {
        let row = &mut self.rows[usize::from(item.t)];
        blocks.gather_ahead(items, item.t, j, row);
    }

    /// The item `j` is done. The row of its thread counts it and what is ordered before it.
    pub(crate) fn put(&mut self, items: &[Item], item: Item, j: usize)
        requires regular { Regular items.now }
        requires there { slice_get items.now j ≡ Some item }
        requires within { j < length items.now }
        requires reached { Reached items.now self.old j item.t }
        ensures clocked { Clocked items.now self.new (j + 1) }
        ensures whole { Down items.now (row_in self.new.rows.items item.t) (λ p. p ≡ j) }
    {
        count_at(&mut self.rows, item.t, j);
        begin(&mut self.begun, item.t);
        put_start(&mut self.rows, item.what, item.t);
    }
}

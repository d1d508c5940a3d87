//! For each byte, what the blocks that have been left and access it are ordered behind, and the blocks themselves.
ghost use Rattle.std.specs.Prelude.{◌≡◌, ℕ, ◌<◌, ◌≤◌, ◌+◌, ◌^◌, ◌⊎◌, MatchOption, OnOk, List, Some, true, false, length, slice_get, slice_index};
ghost use Rattle.tx_events.specs.declared.Item.{Item};
ghost use Rattle.race_check.specs.Blocks.{Adds, Blocked, Enters, First, Gathers, IsMet, Putting, hits, rows_of};
ghost use Rattle.race_check.specs.Clocks.{Own};
ghost use Rattle.race_check.specs.Marks.{mark};
ghost use Rattle.race_check.specs.Regular.{Regular, end_of};
ghost use Rattle.race_check.specs.Rows.{Down};

use crate::items::{bytes_of, is_enter, is_leave, is_write, item_at};
use crate::marks::Marks;
use crate::rows::Row;
use std::alloc::{AllocError, Global};
use tx_events::{Item, What};

/// For each byte, a row of the blocks that have been left and write it, and one of those that access it.
#[derive(Drop)]
pub(crate) struct Blocks {
    pub(crate) writers: Marks,
    pub(crate) users: Marks,
}

// The index at which the thread enters the block that it leaves at `l`, if it does.
fn entry_of(items: &[Item], t: u8, l: usize) -> Option<usize>
    requires { l < length items.now }
    ensures { MatchOption result ((f : ℕ) → Enters items.now t l f → ⊥) (First items.now t l) }
{
    let mut found = None;
    let mut k = l;
    'back: while 0 < k {
        k -= 1;
        let item = item_at(items, k);
        if item.t != t {
            continue;
        }
        if is_leave(item.what) {
            return found;
        }
        if is_enter(item.what) {
            found = Some(k);
        }
    }
    found
}

impl Blocks {
    pub(crate) fn new(alloc: Global) -> Blocks
        ensures { (items : List Item) → Blocked items result 0 }
    {
        Blocks {
            writers: Marks::new(alloc),
            users: Marks::new(alloc),
        }
    }

    // An access of a block that is left; `whole` counts its Leave and what is ordered before that.
    fn put_access(&mut self, what: What, whole: &Row) -> Result<(), AllocError>
        requires { end_of what < 2 ^ 64 }
        ensures writers { OnOk result (Adds (hits true what) (slice_index whole.now.latest) (mark self.old.writers) (mark self.new.writers)) }
        ensures users { OnOk result (Adds (hits false what) (slice_index whole.now.latest) (mark self.old.users) (mark self.new.users)) }
    {
        let bytes = bytes_of(what);
        self.users.add_all(bytes.from, bytes.to, whole)?;
        if !is_write(what) {
            return Ok(());
        }
        self.writers.add_all(bytes.from, bytes.to, whole)?;
        Ok(())
    }

    // The accesses of the block that thread `t` enters at `from` and leaves at `l`.
    fn put_block(
        &mut self,
        items: &[Item],
        t: u8,
        from: usize,
        l: usize,
        whole: &Row,
    ) -> Result<(), AllocError>
        requires regular { Regular items.now }
        requires order { from < l }
        requires within { l < length items.now }
        requires so_far { Blocked items.now self.old l }
        requires whole { Down items.now (slice_index whole.now.latest) (λ p. p ≡ l) }
        ensures { OnOk result (Putting items.now self.new t l from l) }
    {
        'inside: for k in from + 1..l {
            let item = item_at(items, k);
            if item.t != t {
                continue;
            }
            self.put_access(item.what, whole)?;
        }
        Ok(())
    }

    /// The item `j` is done: where it leaves a block, the block is put in; `whole` counts the item and what is ordered before it.
    pub(crate) fn put(
        &mut self,
        items: &[Item],
        item: Item,
        j: usize,
        whole: &Row,
    ) -> Result<(), AllocError>
        requires regular { Regular items.now }
        requires there { slice_get items.now j ≡ Some item }
        requires within { j < length items.now }
        requires so_far { Blocked items.now self.old j }
        requires whole { Down items.now (slice_index whole.now.latest) (λ p. p ≡ j) }
        ensures { OnOk result (Blocked items.now self.new (j + 1)) }
    {
        if !is_leave(item.what) {
            return Ok(());
        }
        let Some(entry) = entry_of(items, item.t, j) else {
            return Ok(());
        };
        self.put_block(items, item.t, entry, j, whole)?;
        Ok(())
    }

    // The blocks with which an access conflicts are counted too.
    fn gather(&self, what: What, row: &mut Row)
        requires { end_of what < 2 ^ 64 }
        ensures { Gathers self.now what (slice_index row.old.latest) (slice_index row.new.latest) }
    {
        let bytes = bytes_of(what);
        self.writers.add_to(row, bytes.from, bytes.to);
        if !is_write(what) {
            return;
        }
        self.users.add_to(row, bytes.from, bytes.to);
    }

    /// The blocks that conflict with the one that thread `u` enters at `j` are counted too.
    pub(crate) fn gather_ahead(&self, items: &[Item], u: u8, j: usize, row: &mut Row)
        requires regular { Regular items.now }
        requires within { j < length items.now }
        requires so_far { Blocked items.now self.now j }
        requires own { Down items.now (slice_index row.old.latest) (Own items.now j u) }
        ensures { Down items.now (slice_index row.new.latest) (λ p. Own items.now j u p ⊎ IsMet items.now j u (length items.now) p) }
    {
        'ahead: for other in j + 1..items.len() {
            let item = item_at(items, other);
            if item.t != u {
                continue;
            }
            if is_leave(item.what) {
                return;
            }
            self.gather(item.what, row);
        }
    }
}

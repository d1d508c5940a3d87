//! The indexes that wait, of which the lowest is taken out first.
ghost use Rattle.std.specs.Prelude.{◌≡◌, ◌==◌, ◌+◌, ◌<◌, ℕ, if◌then◌else◌, IfNone, IfSome, OnErr, OnOk, [], length};
ghost use Rattle.std.specs.BinaryHeap.{IsHeap, heap_items};
ghost use Rattle.std.proofs.Props.{props};
ghost use Rattle.code_walk.specs.Waiting.{by_least, times_in};

use std::alloc::{AllocError, Global};
use std::cmp::Reverse;
use std::collections::BinaryHeap;

/// A heap of indexes.
#[derive(Drop)]
pub(crate) struct Waiting {
    pub(crate) indexes: BinaryHeap<Reverse<usize>>,
    ghost ordered: { IsHeap by_least (heap_items indexes) } by { Prim.hlevel props },
}

impl Waiting {
    pub(crate) fn new(alloc: Global) -> Waiting
        ensures { (i : ℕ) → times_in (heap_items result.indexes) i ≡ 0 }
    {
        Waiting {
            indexes: BinaryHeap::new(alloc),
        }
    }

    pub(crate) fn add(&mut self, index: usize) -> Result<(), AllocError>
        ensures added { OnOk result ((i : ℕ) → times_in (heap_items self.new.indexes) i
            ≡ times_in (heap_items self.old.indexes) i + (if index == i then 1 else 0)) }
        ensures same { OnErr result ((i : ℕ) → times_in (heap_items self.new.indexes) i ≡ times_in (heap_items self.old.indexes) i) }
    {
        self.indexes.push(Reverse(index))?;
        Ok(())
    }

    /// Takes out the lowest index.
    pub(crate) fn take_least(&mut self) -> Option<usize>
        ensures none { IfNone result ((i : ℕ) → times_in (heap_items self.old.indexes) i ≡ 0) }
        ensures same { IfNone result (heap_items self.new.indexes ≡ heap_items self.old.indexes) }
        ensures one { IfSome result (λ index. (i : ℕ) → times_in (heap_items self.old.indexes) i
            ≡ times_in (heap_items self.new.indexes) i + (if index == i then 1 else 0)) }
        ensures least { IfSome result (λ index. (i : ℕ) → i < index → times_in (heap_items self.old.indexes) i ≡ 0) }
    {
        let Some(Reverse(index)) = self.indexes.pop() else {
            return None;
        };
        Some(index)
    }
}

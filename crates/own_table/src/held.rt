//! The words that one thread holds, of which the least is taken out first.
ghost use Rattle.std.specs.Prelude.{◌≡◌, ◌==◌, ◌+◌, ◌<◌, ◌≤◌, ℕ, length, if◌then◌else◌, IfNone, IfSome, IfOk, OnOk};
ghost use Rattle.std.specs.BinaryHeap.{IsHeap, heap_items, heap_len, heap_capacity};
ghost use Rattle.std.proofs.Props.{props};
ghost use Rattle.own_table.specs.Words.{by_least, times_in};

use std::alloc::{AllocError, Global};
use std::cmp::Reverse;
use std::collections::BinaryHeap;

/// A heap of words.
#[derive(Drop)]
pub(crate) struct HeldWords {
    pub(crate) words: BinaryHeap<Reverse<u64>>,
    ghost ordered: { IsHeap by_least (heap_items words) } by { Prim.hlevel props },
    ghost fits: { heap_len words ≤ heap_capacity words },
}

impl HeldWords {
    pub(crate) fn new(alloc: Global) -> HeldWords
        ensures { (w : ℕ) → times_in (heap_items result.words) w ≡ 0 }
    {
        HeldWords {
            words: BinaryHeap::new(alloc),
        }
    }

    /// How many words there are.
    pub(crate) fn len(&self) -> usize
        ensures { result ≡ length (heap_items self.now.words) }
    {
        self.words.len()
    }

    /// Makes room for so many words more.
    pub(crate) fn reserve(&mut self, count: usize) -> Result<(), AllocError>
        ensures same { heap_items self.new.words ≡ heap_items self.old.words }
        ensures capacity { OnOk result (heap_len self.new.words + count ≤ heap_capacity self.new.words) }
    {
        self.words.reserve(count)
    }

    pub(crate) fn add(&mut self, word: u64)
        requires capacity { heap_len self.old.words < heap_capacity self.old.words }
        ensures added { (w : ℕ) → times_in (heap_items self.new.words) w
            ≡ times_in (heap_items self.old.words) w + (if word == w then 1 else 0) }
        ensures len { heap_len self.new.words ≡ heap_len self.old.words + 1 }
        ensures kept { heap_capacity self.old.words ≤ heap_capacity self.new.words }
    {
        let _ = self.words.push(Reverse(word));
    }

    /// Takes out the least word.
    pub(crate) fn take_least(&mut self) -> Option<u64>
        ensures none { IfNone result ((w : ℕ) → times_in (heap_items self.old.words) w ≡ 0) }
        ensures same { IfNone result (heap_items self.new.words ≡ heap_items self.old.words) }
        ensures one { IfSome result (λ word. (w : ℕ) → times_in (heap_items self.old.words) w
            ≡ times_in (heap_items self.new.words) w + (if word == w then 1 else 0)) }
        ensures least { IfSome result (λ word. (w : ℕ) → w < word → times_in (heap_items self.old.words) w ≡ 0) }
        ensures len { heap_len self.new.words ≤ heap_len self.old.words }
        ensures kept { heap_capacity self.new.words ≡ heap_capacity self.old.words }
    {
        let Some(Reverse(word)) = self.words.pop() else {
            return None;
        };
        Some(word)
    }
}

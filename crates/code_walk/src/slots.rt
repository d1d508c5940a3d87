//! The slots of a body's indexes, and which of the indexes wait.
ghost use Rattle.std.specs.Prelude.{◌≡◌, ◌<◌, ◌∷◌, [], true, length, map, IfOk, IfNone, IfSome, IsSome, Some, None, List, false, replicate, is_none, not, ◌&&◌, slice_index_or, slice_set};
ghost use Rattle.std.specs.List.{list_all};
ghost use Rattle.tx_events.specs.Thread.{Open};
ghost use Rattle.code_walk.specs.Walk.{given, noted, lowest};
ghost use Rattle.code_walk.specs.ShapeViews.{shape_of, fits};
ghost use Rattle.code_walk.specs.Slots.{slot_of, slot_fits, tested, Notes};
ghost use Rattle.code_walk.specs.Waiting.{bare_slot, looked_slot};

use crate::nests::Nests;
use crate::shapes::{Shape, is_same};
use crate::waiting::Waiting;
use crate::walk::Slot;
use std::alloc::{AllocError, Global};
use std::marker::Model;

/// What is known of each index, and the indexes that have a shape and were not yet looked at.
#[derive(Drop)]
pub(crate) struct Slots {
    slots: Vec<Slot>,
    waiting: Waiting,
}

/// An index that is looked at, and what was known of it.
#[derive(Clone, Copy)]
pub(crate) struct Looked {
    pub(crate) index: usize,
    pub(crate) slot: Slot,
}

impl Model for Slots {
    ghost use Rattle.std.specs.Prelude.{List};
    ghost use Rattle.std.specs.BinaryHeap.{heap_items};
    ghost use Rattle.code_walk.specs.declared.walk.Slot.{Slot};
    ghost use Rattle.code_walk.specs.Waiting.{AreWaiting};

    ghost Value = { List Slot };

    ghost view = { λ s. s.slots.items };

    ghost invariant = { λ s. AreWaiting s.slots.items (heap_items s.waiting.indexes) };
}

// A slot that is given a shape: the first one stays.
fn noted(nests: &Nests, old: Slot, shape: Shape) -> Slot
    requires old { slot_fits nests.now old ≡ true }
    requires shape { fits nests.now shape ≡ true }
    ensures is { slot_of nests.now result ≡ noted tested (slot_of nests.now old) (shape_of nests.now shape) }
    ensures fit { slot_fits nests.now result ≡ true }
    ensures looked { result.looked ≡ old.looked }
    ensures shape { IsSome result.shape }
{
    match old.shape {
        None => Slot {
            shape: Some(shape),
            looked: old.looked,
            clash: old.clash,
        },
        Some(first) => {
            if is_same(nests, first, shape) {
                old
            } else {
                Slot {
                    shape: old.shape,
                    looked: old.looked,
                    clash: true,
                }
            }
        }
    }
}

// It will wait once it has a shape.
fn is_new(slot: Slot) -> bool
    ensures { result ≡ (is_none slot.shape && not slot.looked) }
{
    slot.shape.is_none() && !slot.looked
}

// Slots of which nothing is known.
fn bare_slots(alloc: Global, count: usize) -> Result<Vec<Slot>, AllocError>
    ensures { IfOk result (λ slots. slots.items ≡ replicate count bare_slot) }
{
    let mut slots = Vec::new(alloc);
    for _ in 0..count {
        slots.push(Slot {
            shape: None,
            looked: false,
            clash: false,
        })?;
    }
    Ok(slots)
}

impl Slots {
    /// Slots of which nothing is known.
    pub(crate) fn new(alloc: Global, count: usize) -> Result<Slots, AllocError>
        ensures { IfOk result (λ slots. slots ≡ replicate count bare_slot) }
    {
        let slots = bare_slots(alloc, count)?;
        Ok(Slots {
            slots,
            waiting: Waiting::new(alloc),
        })
    }

    // An index within is given a shape.
    fn note_within(&mut self, nests: &Nests, at: usize, shape: Shape) -> Result<(), AllocError>
        requires within { at < length self.old }
        requires slots { list_all (slot_fits nests.now) self.old ≡ true }
        requires shape { fits nests.now shape ≡ true }
        ensures { IfOk result (λ _. Notes nests.now self.old self.new (given at (shape_of nests.now shape) ∷ [])) }
    {
        let old = self.slots[at];
        if is_new(old) {
            self.waiting.add(at)?;
            self.slots[at] = noted(nests, old, shape);
            return Ok(());
        }
        self.slots[at] = noted(nests, old, shape);
        Ok(())
    }

    /// An index is given a shape.
    pub(crate) fn note(&mut self, nests: &Nests, at: usize, shape: Shape) -> Result<(), AllocError>
        requires slots { list_all (slot_fits nests.now) self.old ≡ true }
        requires shape { fits nests.now shape ≡ true }
        ensures { IfOk result (λ _. Notes nests.now self.old self.new (given at (shape_of nests.now shape) ∷ [])) }
    {
        if at < self.slots.len() {
            self.note_within(nests, at, shape)?;
        }
        Ok(())
    }

    /// The lowest index that waits is looked at.
    pub(crate) fn look(&mut self) -> Option<Looked>
        ensures none { IfNone result ((t : List (List Open)) → lowest 0 (map (slot_of t) self.old) ≡ None) }
        ensures same { IfNone result (self.new ≡ self.old) }
        ensures lowest { IfSome result (λ l. (t : List (List Open)) → lowest 0 (map (slot_of t) self.old) ≡ Some l.index) }
        ensures within { IfSome result (λ l. l.index < length self.old) }
        ensures slot { IfSome result (λ l. l.slot ≡ slice_index_or self.old l.index l.slot) }
        ensures looked { IfSome result (λ l. self.new ≡ slice_set self.old l.index (looked_slot l.slot)) }
    {
        let Some(index) = self.waiting.take_least() else {
            return None;
        };
        let slot = self.slots[index];
        self.slots[index] = Slot {
            shape: slot.shape,
            looked: true,
            clash: slot.clash,
        };
        Some(Looked { index, slot })
    }

    /// The slots alone.
    pub(crate) fn into_vec(self) -> Vec<Slot>
        ensures { result.items ≡ self }
    {
        self.slots
    }
}

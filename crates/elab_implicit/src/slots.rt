// Functions that stand in slots of classes (C++14 10.3).

ghost use Rattle.std.specs.Prelude.{◌≡◌, map, slice_get};
ghost use Rattle.elab_entry.specs.cpp_tree.Units.{slot_of};
ghost use Rattle.elab_entry.specs.elab_ctx.Ctx.{ctx_of};
ghost use Rattle.elab_implicit.specs.Marks.{place_marked, slots_marked, all_slots_marked};

use crate::marks::mark;
use elab_entry::below::{Env, Functions, SlotRec};

// The function at one of some places is marked.
fn mark_place(places: &[u32], index: u32, marks: &mut Vec<bool>)
    ensures { marks.new.items ≡ place_marked (slice_get places.now index) marks.old.items }
{
    if let Some(place) = places.get(index as usize) {
        mark(marks, *place);
    }
}

// The functions in some slots are marked.
fn mark_list(funcs: &Functions, slots: &[SlotRec], marks: &mut Vec<bool>)
    ensures { marks.new.items ≡ slots_marked funcs.now marks.old.items (map slot_of slots.now) }
{
    for slot in slots {
        mark_place(funcs.of_class(slot.class), slot.func, marks);
    }
}

// The functions in several lists of slots are marked.
fn mark_lists(funcs: &Functions, slots: &[Vec<SlotRec>], marks: &mut Vec<bool>)
    ensures { marks.new.items ≡ all_slots_marked funcs.now marks.old.items (map (λ slots. map slot_of slots.items) slots.now) }
{
    for list in slots {
        mark_list(funcs, list, marks);
    }
}

/// The functions in the slots of all classes are marked.
pub fn mark_slots(env: &Env, marks: &mut Vec<bool>)
    ensures { marks.new.items ≡ all_slots_marked env.now.funcs marks.old.items (ctx_of env.now).slots }
{
    mark_lists(&env.funcs, &env.slots, marks);
}

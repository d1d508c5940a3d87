// The sizes of types and classes.

ghost use Rattle.std.specs.Prelude.{◌≡◌, ◌<◌, map, MatchOption};
ghost use Rattle.cpp_types.specs.Typ.{shape_form};
ghost use Rattle.cpp_types.specs.Class.{InOrder, classes_of, member_of};
ghost use Rattle.cpp_layout.specs.Layout.{form_extent, class_extent, base_items, end_from};
ghost use Rattle.cpp_layout.specs.Measured.{IsComplete, HoldsComplete, HeldBelow, BaseComplete, Measured, InBounds, Follows, member_extents, empty_cursor};
ghost use Rattle.cpp_layout.specs.declared.extents.TheConstants.{GREATEST_SIZE};

use crate::alignments::align_of;
use crate::cursor::{LayoutCursor, append, no_items, whole_of};
use crate::extents::{SizeAlign, has_no_elements, scalar_of, scaled};
use crate::pointers::with_pointer;
use cpp_types::classes::record_at;
use cpp_types::copyability::held_class;
use cpp_types::{ClassRec, MemberRec, Shape};

// The size and alignment of a shape; `None` where the size passes the greatest.
//
// A class is visited again for each use, but an item that is placed takes a byte or more, and the
// walk ends where the items pass the greatest size. So it visits no more items than that size has
// bytes, times the depth to which classes nest.
#[cycle(measure)]
pub fn measured(shape: &Shape, classes: &[ClassRec]) -> Option<SizeAlign>
    requires in_order { InOrder (classes_of classes.now) }
    requires complete { HoldsComplete (classes_of classes.now) (shape_form shape.now) }
    ensures { MatchOption result (GREATEST_SIZE < (form_extent (class_extent (classes_of classes.now)) (shape_form shape.now)).size) (λ s. Measured (form_extent (class_extent (classes_of classes.now)) (shape_form shape.now)) s) }
{
    if has_no_elements(shape) {
        return Some(SizeAlign {
            size: 0,
            align: align_of(shape, classes),
        });
    }
    match held_class(shape) {
        Some(part) => scaled(shape, class_measured(part, classes)?),
        None => scaled(shape, scalar_of(1)),
    }
}

// The size and alignment of a complete class.
#[cycle(measure)]
fn class_measured(class: u32, classes: &[ClassRec]) -> Option<SizeAlign>
    requires in_order { InOrder (classes_of classes.now) }
    requires complete { IsComplete (classes_of classes.now) class }
    ensures { MatchOption result (GREATEST_SIZE < (class_extent (classes_of classes.now) class).size) (λ s. Measured (class_extent (classes_of classes.now) class) s) }
{
    let found = record_at(classes, class)?;
    let number = found.complete?;
    let base = base_cursor(found.base, classes)?;
    let head = with_pointer(base, classes, class)?;
    let cursor = with_members(head, &found.members, number, classes)?;
    whole_of(cursor)
}

// The base, as the first item.
#[cycle(measure)]
pub fn base_cursor(base: Option<u32>, classes: &[ClassRec]) -> Option<LayoutCursor>
    requires in_order { InOrder (classes_of classes.now) }
    requires complete { BaseComplete (classes_of classes.now) base }
    ensures { MatchOption result (GREATEST_SIZE < end_from 0 (base_items (class_extent (classes_of classes.now)) base)) (λ r. Follows empty_cursor (base_items (class_extent (classes_of classes.now)) base) r) }
{
    match base {
        Some(class) => append(no_items(), class_measured(class, classes)?),
        None => Some(no_items()),
    }
}

// The cursor with members after it, which hold classes completed before `number` others.
#[cycle(measure)]
pub fn with_members(
    start: LayoutCursor,
    members: &[MemberRec],
    number: u32,
    classes: &[ClassRec],
) -> Option<LayoutCursor>
    requires in_order { InOrder (classes_of classes.now) }
    requires held { HeldBelow (classes_of classes.now) number (map member_of members.now) }
    requires bounds { InBounds start }
    ensures { MatchOption result (GREATEST_SIZE < end_from start.end (member_extents (classes_of classes.now) (map member_of members.now))) (λ r. Follows start (member_extents (classes_of classes.now) (map member_of members.now)) r) }
{
    let mut cursor = start;
    for member in members {
        cursor = append(cursor, measured(&member.ty.shape, classes)?)?;
    }
    Some(cursor)
}

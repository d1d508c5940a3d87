// The alignments of types and classes.

ghost use Rattle.std.specs.Prelude.{◌≡◌, ◌≤◌, map};
ghost use Rattle.cpp_types.specs.Typ.{shape_form};
ghost use Rattle.cpp_types.specs.Class.{InOrder, classes_of, member_of};
ghost use Rattle.cpp_layout.specs.Layout.{form_extent, class_extent, base_items, greatest_align};
ghost use Rattle.cpp_layout.specs.Measured.{IsComplete, HoldsComplete, HeldBelow, BaseComplete, member_extents};

use crate::extents::shape_align;
use crate::pointers::pointer_align;
use cpp_types::classes::record_at;
use cpp_types::copyability::held_class;
use cpp_types::{ClassRec, MemberRec, Shape};

// The alignment of a shape.
//
// Each class is visited once for each use, so the work can double with each class that nests.
// Only an array of no elements is asked for, which the language does not have.
#[cycle(align)]
pub fn align_of(shape: &Shape, classes: &[ClassRec]) -> u32
    requires in_order { InOrder (classes_of classes.now) }
    requires complete { HoldsComplete (classes_of classes.now) (shape_form shape.now) }
    ensures value { result ≡ (form_extent (class_extent (classes_of classes.now)) (shape_form shape.now)).align }
    ensures low { 1 ≤ result }
    ensures high { result ≤ 8 }
{
    match held_class(shape) {
        Some(part) => shape_align(shape, class_align(part, classes)),
        None => shape_align(shape, 1),
    }
}

// The alignment of a complete class.
#[cycle(align)]
fn class_align(class: u32, classes: &[ClassRec]) -> u32
    requires in_order { InOrder (classes_of classes.now) }
    requires complete { IsComplete (classes_of classes.now) class }
    ensures value { result ≡ (class_extent (classes_of classes.now) class).align }
    ensures low { 1 ≤ result }
    ensures high { result ≤ 8 }
{
    let Some(found) = record_at(classes, class) else {
        return 1;
    };
    let Some(number) = found.complete else {
        return 1;
    };
    let head = base_align(found.base, classes).max(pointer_align(classes, class));
    head.max(members_align(&found.members, number, classes))
}

// The alignment of the base, and 1 where there is none.
#[cycle(align)]
fn base_align(base: Option<u32>, classes: &[ClassRec]) -> u32
    requires in_order { InOrder (classes_of classes.now) }
    requires complete { BaseComplete (classes_of classes.now) base }
    ensures value { result ≡ greatest_align (base_items (class_extent (classes_of classes.now)) base) }
    ensures low { 1 ≤ result }
    ensures high { result ≤ 8 }
{
    match base {
        Some(class) => class_align(class, classes),
        None => 1,
    }
}

// The greatest alignment of members that hold classes completed before `number` others.
#[cycle(align)]
fn members_align(members: &[MemberRec], number: u32, classes: &[ClassRec]) -> u32
    requires in_order { InOrder (classes_of classes.now) }
    requires held { HeldBelow (classes_of classes.now) number (map member_of members.now) }
    ensures value { result ≡ greatest_align (member_extents (classes_of classes.now) (map member_of members.now)) }
    ensures low { 1 ≤ result }
    ensures high { result ≤ 8 }
{
    let mut greatest = 1;
    for member in members {
        greatest = align_of(&member.ty.shape, classes).max(greatest);
    }
    greatest
}

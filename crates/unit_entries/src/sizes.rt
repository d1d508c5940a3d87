//! Sizes and offsets. What their calls need is tested before; where it does not hold, that counts as want of memory.

ghost use Rattle.std.specs.Prelude.{◌≡◌, ◌≤◌, true, false, map, slice_get, Some, IfOk};
ghost use Rattle.cpp_tree.specs.cpp_types.Typ.{typ, class, typ_of, shape_form};
ghost use Rattle.cpp_tree.specs.cpp_types.Class.{Class, Member, InOrder, classes_of};
ghost use Rattle.cpp_tree.specs.cpp_layout.Layout.{class_extent, extent_of, frame_size};
ghost use Rattle.cpp_tree.specs.cpp_layout.Measured.{IsComplete, HoldsComplete, HasMember, Measured, member_offset as offset_of_member};
ghost use Rattle.cpp_tree.specs.cpp_layout.Frames.{AllComplete, IsFrame, item_extents};
ghost use Rattle.cpp_tree.specs.cpp_layout.declared.extents.TheConstants.{GREATEST_SIZE};

use cpp_layout::{FrameRec, SizeAlign, frame, offset, size_align};
use cpp_tree::below::{ClassRec, Shape, Ty, held_class, is_in_order, record_at};
use std::alloc::{AllocError, Global};

// Whether a class of the list is complete.
#[tactic(auto, using(cpp_layout::proofs::Samples::complete_by))]
fn is_complete(classes: &[ClassRec], class: u32) -> bool
    ensures { result ≡ true → IsComplete (classes_of classes.now) class }
{
    match record_at(classes, class) {
        Some(found) => found.complete.is_some(),
        None => false,
    }
}

// Whether the class that a value of the type holds is complete.
fn holds_complete(ty: &Ty, classes: &[ClassRec]) -> bool
    ensures { result ≡ true → HoldsComplete (classes_of classes.now) (shape_form ty.now.shape) }
{
    match held_class(&ty.shape) {
        Some(part) => is_complete(classes, part),
        None => true,
    }
}

// Whether each class that an item holds is complete.
fn all_complete(items: &[Ty], classes: &[ClassRec]) -> bool
    ensures { result ≡ true → AllComplete (classes_of classes.now) (map typ_of items.now) }
{
    for item in items {
        if !holds_complete(item, classes) {
            return false;
        }
    }
    true
}

// Whether a class has a member of this index.
fn has_member(classes: &[ClassRec], class: u32, member: u32) -> bool
    ensures { result ≡ true → HasMember (classes_of classes.now) class member }
{
    match record_at(classes, class) {
        Some(found) => (member as usize) < found.members.len(),
        None => false,
    }
}

// A class as a type.
fn class_type(number: u32) -> Ty
    ensures { typ_of result ≡ typ (class number) false false }
{
    Ty {
        shape: Shape::Class(number),
        is_const: false,
        is_volatile: false,
    }
}

// Whether a complete class does not pass the greatest size.
#[tactic(auto, using(cpp_layout::proofs::Samples::class_holds, cpp_layout::proofs::Samples::size_within))]
fn is_within(classes: &[ClassRec], number: u32) -> bool
    requires in_order { InOrder (classes_of classes.now) }
    requires complete { IsComplete (classes_of classes.now) number }
    ensures { result ≡ true → (class_extent (classes_of classes.now) number).size ≤ GREATEST_SIZE }
{
    let ty = class_type(number);
    size_align(&ty, classes).is_ok()
}

/// The size and the alignment of a type's objects.
pub fn extent(ty: &Ty, classes: &[ClassRec]) -> Result<SizeAlign, AllocError>
    ensures { IfOk result (λ s. Measured (extent_of (classes_of classes.now) (typ_of ty.now)) s) }
{
    if !is_in_order(classes) {
        return Err(AllocError);
    }
    if !holds_complete(ty, classes) {
        return Err(AllocError);
    }
    match size_align(ty, classes) {
        Ok(found) => Ok(found),
        Err(_) => Err(AllocError),
    }
}

/// The size and the alignment of a class's objects.
pub fn class_size(number: u32, classes: &[ClassRec]) -> Result<SizeAlign, AllocError>
    ensures { IfOk result (λ s. Measured (class_extent (classes_of classes.now) number) s) }
{
    extent(&class_type(number), classes)
}

/// Where a member lies in the objects of its class.
pub fn member_offset(classes: &[ClassRec], class: u32, member: u32) -> Result<u32, AllocError>
    ensures { IfOk result (λ o. (c : Class) (m : Member) → slice_get (classes_of classes.now) class ≡ Some c → slice_get c.members member ≡ Some m → o ≡ offset_of_member (classes_of classes.now) class c member m) }
{
    if !is_in_order(classes) {
        return Err(AllocError);
    }
    if !is_complete(classes, class) {
        return Err(AllocError);
    }
    if !has_member(classes, class, member) {
        return Err(AllocError);
    }
    if !is_within(classes, class) {
        return Err(AllocError);
    }
    Ok(offset(classes, class, member))
}

/// Where the items of a frame lie.
pub fn frame_of(alloc: Global, items: &[Ty], classes: &[ClassRec]) -> Result<FrameRec, AllocError>
    ensures { IfOk result (λ f. IsFrame (classes_of classes.now) (map typ_of items.now) f) }
{
    if !is_in_order(classes) {
        return Err(AllocError);
    }
    if !all_complete(items, classes) {
        return Err(AllocError);
    }
    match frame(alloc, items, classes) {
        Ok(found) => Ok(found),
        Err(_) => Err(AllocError),
    }
}

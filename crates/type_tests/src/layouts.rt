// Layouts: calls whose premises are tested before.

ghost use Rattle.std.specs.Prelude.{◌≡◌, ◌≤◌, true, false, map};
ghost use Rattle.cpp_layout.specs.cpp_types.Typ.{typ, class, typ_of, shape_form};
ghost use Rattle.cpp_layout.specs.cpp_types.Class.{InOrder, classes_of};
ghost use Rattle.cpp_layout.specs.Layout.{class_extent};
ghost use Rattle.cpp_layout.specs.Measured.{IsComplete, HoldsComplete, HasMember};
ghost use Rattle.cpp_layout.specs.Frames.{AllComplete};
ghost use Rattle.cpp_layout.specs.declared.extents.TheConstants.{GREATEST_SIZE};

use cpp_layout::below::{ClassRec, Shape, Ty, held_class, is_in_order, record_at};
use cpp_layout::extents::SizeAlign;
use cpp_layout::frames::{FrameFault, FrameRec, frame};
use cpp_layout::objects::{TooLarge, offset, size_align};
use std::alloc::{AllocError, Global};

// The members of a class whose offsets are written.
const MEMBERS: u32 = 3;

// Whether a class of the list is complete.
#[tactic(auto, using(cpp_layout::proofs::Samples::complete_by))]
fn is_complete(classes: &[ClassRec], class: u32) -> bool
    ensures { result ≡ true → IsComplete (classes_of classes.now) class }
{
    match record_at(classes, class) {
        Some(found) => found.complete.is_some(),
        None => false,
    }
}

// Whether the class that a value of the type holds is complete.
fn holds_complete(ty: &Ty, classes: &[ClassRec]) -> bool
    ensures { result ≡ true → HoldsComplete (classes_of classes.now) (shape_form ty.now.shape) }
{
    match held_class(&ty.shape) {
        Some(part) => is_complete(classes, part),
        None => true,
    }
}

// Whether a class has a member of this index.
fn has_member(classes: &[ClassRec], class: u32, member: u32) -> bool
    ensures { result ≡ true → HasMember (classes_of classes.now) class member }
{
    match record_at(classes, class) {
        Some(found) => (member as usize) < found.members.len(),
        None => false,
    }
}

// A class as a type.
fn class_type(number: u32) -> Ty
    ensures { typ_of result ≡ typ (class number) false false }
{
    Ty {
        shape: Shape::Class(number),
        is_const: false,
        is_volatile: false,
    }
}

// Whether a complete class does not pass the greatest size.
#[tactic(auto, using(cpp_layout::proofs::Samples::class_holds, cpp_layout::proofs::Samples::size_within))]
fn is_within(classes: &[ClassRec], number: u32) -> bool
    requires in_order { InOrder (classes_of classes.now) }
    requires complete { IsComplete (classes_of classes.now) number }
    ensures { result ≡ true → (class_extent (classes_of classes.now) number).size ≤ GREATEST_SIZE }
{
    let ty = class_type(number);
    size_align(&ty, classes).is_ok()
}

// What a type's objects take; `None` where a premise of the call does not hold.
fn measure(ty: &Ty, classes: &[ClassRec]) -> Option<Result<SizeAlign, TooLarge>> {
    if !is_in_order(classes) {
        return None;
    }
    if !holds_complete(ty, classes) {
        return None;
    }
    Some(size_align(ty, classes))
}

// Where a member lies; `None` where a premise of the call does not hold.
fn member_offset(classes: &[ClassRec], class: u32, member: u32) -> Option<u32> {
    if !is_in_order(classes) {
        return None;
    }
    if !is_complete(classes, class) {
        return None;
    }
    if !has_member(classes, class, member) {
        return None;
    }
    if !is_within(classes, class) {
        return None;
    }
    Some(offset(classes, class, member))
}

// Whether each class that an item holds is complete.
fn all_complete(items: &[Ty], classes: &[ClassRec]) -> bool
    ensures { result ≡ true → AllComplete (classes_of classes.now) (map typ_of items.now) }
{
    for item in items {
        if !holds_complete(item, classes) {
            return false;
        }
    }
    true
}

// What a type's objects take, or why there is no answer.
fn shown(alloc: Global, found: Option<Result<SizeAlign, TooLarge>>) -> Result<String, AllocError> {
    match found {
        Some(Ok(extent)) => format!(in alloc; "{} {}", extent.size, extent.align),
        Some(Err(TooLarge)) => format!(in alloc; "too large"),
        None => format!(in alloc; "not in order, or not complete"),
    }
}

/// The size and the alignment of a type.
pub fn extent(alloc: Global, ty: &Ty, classes: &[ClassRec]) -> Result<String, AllocError> {
    shown(alloc, measure(ty, classes))
}

/// The size and the alignment of a class, and the offsets of its members.
pub fn layout(alloc: Global, classes: &[ClassRec], number: u32) -> Result<String, AllocError> {
    let mut line = extent(alloc, &class_type(number), classes)?;
    for member in 0..MEMBERS {
        if let Some(at) = member_offset(classes, number, member) {
            line.push_str(&format!(in alloc; " {at}")?)?;
        }
    }
    Ok(line)
}

// The size of a frame, and the offsets of its items.
fn listed(alloc: Global, found: &FrameRec) -> Result<String, AllocError> {
    let mut line = format!(in alloc; "{}", found.size)?;
    for at in &found.offsets {
        line.push_str(&format!(in alloc; " {at}")?)?;
    }
    Ok(line)
}

/// The frame of some items.
pub fn framed(alloc: Global, classes: &[ClassRec], items: &[Ty]) -> Result<String, AllocError> {
    if !is_in_order(classes) {
        return format!(in alloc; "not in order");
    }
    if !all_complete(items, classes) {
        return format!(in alloc; "not complete");
    }
    match frame(alloc, items, classes) {
        Ok(found) => listed(alloc, &found),
        Err(FrameFault::TooLarge) => format!(in alloc; "too large"),
        Err(FrameFault::Memory) => format!(in alloc; "memory"),
    }
}

// The sizes of objects, and where their members lie.

ghost use Rattle.std.specs.Prelude.{◌≡◌, ◌≤◌, ◌<◌, map, length, take, slice_get, MatchOption, MatchResult, Some};
ghost use Rattle.cpp_types.specs.declared.classes.MemberRec.{MemberRec};
ghost use Rattle.cpp_types.specs.Typ.{typ_of, shape_form};
ghost use Rattle.cpp_types.specs.Class.{Class, Member, InOrder, classes_of, class_of, member_of};
ghost use Rattle.cpp_layout.specs.Layout.{class_extent, extent_of, member_extent, end_from, next_multiple};
ghost use Rattle.cpp_layout.specs.Measured.{IsComplete, HoldsComplete, HeldBelow, Measured, HasMember, InBounds, member_extents, member_offset};
ghost use Rattle.cpp_layout.specs.declared.extents.TheConstants.{GREATEST_SIZE};

use crate::cursor::{LayoutCursor, aligned_up};
use crate::extents::SizeAlign;
use crate::measures::{base_cursor, measured, with_members};
use crate::pointers::with_pointer;
use cpp_types::classes::record_at;
use cpp_types::{ClassRec, MemberRec, Ty};

/// The size of an object passes 1,048,576 bytes.
#[derive(Debug, Clone, Copy, PartialEq, Eq)]
pub struct TooLarge;

/// The size and the alignment of a type's objects, in bytes; a reference has those of a pointer.
///
/// Needs a list of classes in order, and the class that a value of the type holds to be complete.
/// Answers `TooLarge` exactly where the size passes 1,048,576 bytes. `void` and functions, which
/// no object has as its type, count as one byte.
///
/// A class is visited again for each use, but the walk ends where the items that it has placed
/// pass the greatest size, and each item takes a byte or more. So no more classes are visited than
/// that size has bytes, times the depth to which they nest. (An array of no elements, which the
/// language does not have, is exact, too, but the alignment of its class is found without this
/// bound.)
pub fn size_align(ty: &Ty, classes: &[ClassRec]) -> Result<SizeAlign, TooLarge>
    requires in_order { InOrder (classes_of classes.now) }
    requires complete { HoldsComplete (classes_of classes.now) (shape_form ty.now.shape) }
    ensures { MatchResult result (λ s. Measured (extent_of (classes_of classes.now) (typ_of ty.now)) s) (λ e. GREATEST_SIZE < (extent_of (classes_of classes.now) (typ_of ty.now)).size) }
{
    match measured(&ty.shape, classes) {
        Some(found) => Ok(found),
        None => Err(TooLarge),
    }
}

// The offset of a member after the cursor `head` and the members before it; `None` where the members
// pass the greatest size.
fn member_found(
    head: LayoutCursor,
    members: &[MemberRec],
    member: u32,
    number: u32,
    classes: &[ClassRec],
) -> Option<u32>
    requires in_order { InOrder (classes_of classes.now) }
    requires held { HeldBelow (classes_of classes.now) number (map member_of members.now) }
    requires bounds { InBounds head }
    requires member { member < length members.now }
    ensures { MatchOption result (GREATEST_SIZE < end_from head.end (member_extents (classes_of classes.now) (map member_of members.now))) (λ o. (m : MemberRec) → slice_get members.now member ≡ Some m → o ≡ next_multiple (end_from head.end (member_extents (classes_of classes.now) (map member_of (take member members.now)))) (member_extent (class_extent (classes_of classes.now)) (member_of m)).align) }
{
    let cursor = with_members(head, &members[..member as usize], number, classes)?;
    let item = measured(&members[member as usize].ty.shape, classes)?;
    Some(aligned_up(cursor.end, item.align))
}

// The offset of a member; `None` where the class is too large.
fn offset_found(classes: &[ClassRec], class: u32, member: u32) -> Option<u32>
    requires in_order { InOrder (classes_of classes.now) }
    requires complete { IsComplete (classes_of classes.now) class }
    requires member { HasMember (classes_of classes.now) class member }
    ensures { MatchOption result (GREATEST_SIZE < (class_extent (classes_of classes.now) class).size) (λ o. (c : Class) (m : Member) → slice_get (classes_of classes.now) class ≡ Some c → slice_get c.members member ≡ Some m → o ≡ member_offset (classes_of classes.now) class c member m) }
{
    let found = record_at(classes, class)?;
    let number = found.complete?;
    let base = base_cursor(found.base, classes)?;
    let head = with_pointer(base, classes, class)?;
    member_found(head, &found.members, member, number, classes)
}

/// The offset of a member in the objects of a class, in bytes.
///
/// Needs a list of classes in order, and in it a complete class whose size does not pass 1,048,576
/// bytes; `member` is the member's index among those of the class.
pub fn offset(classes: &[ClassRec], class: u32, member: u32) -> u32
    requires in_order { InOrder (classes_of classes.now) }
    requires complete { IsComplete (classes_of classes.now) class }
    requires member { HasMember (classes_of classes.now) class member }
    requires size { (class_extent (classes_of classes.now) class).size ≤ GREATEST_SIZE }
    ensures { (c : Class) (m : Member) → slice_get (classes_of classes.now) class ≡ Some c → slice_get c.members member ≡ Some m → result ≡ member_offset (classes_of classes.now) class c member m }
{
    match offset_found(classes, class, member) {
        Some(found) => found,
        None => 0,
    }
}

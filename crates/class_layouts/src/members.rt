// Parts of a class one after another: its base, and its members.

ghost use Rattle.std.specs.Prelude.{◌≡◌, ◌<◌, ℕ, map, slice_get, IfOk, IfSome, MatchOption};
ghost use Rattle.cpp_types.specs.Typ.{typ_of, shape_form};
ghost use Rattle.cpp_types.specs.Class.{InOrder, classes_of, member_of};
ghost use Rattle.cpp_layout.specs.Layout.{Extent, base_items, end_from, extent_of};
ghost use Rattle.cpp_layout.specs.Measured.{InBounds, Follows, Measured, member_extents, empty_cursor, shown};
ghost use Rattle.cpp_layout.specs.declared.extents.TheConstants.{GREATEST_SIZE};
ghost use Rattle.class_layouts.specs.Kept.{known_extent, BaseKept, HoldsKept, MembersKept, AreMembers};

use cpp_layout::cursor::{LayoutCursor, aligned_up, append, no_items};
use cpp_layout::extents::{has_no_elements, scalar_of, scaled};
use cpp_layout::{SizeAlign, size_align};
use cpp_types::copyability::held_class;
use cpp_types::{ClassRec, MemberRec, Ty};
use elab_ctx::ClassLayout;
use std::alloc::{AllocError, Global};

/// Members one after another, and where each lies, in bytes.
#[derive(Drop)]
pub struct PlacedMembers {
    pub cursor: LayoutCursor,
    pub offsets: Vec<u32>,
}

// The size and the alignment of the objects of a class, where they are known.
fn class_measured(layouts: &[ClassLayout], class: u32) -> Option<SizeAlign>
    ensures is { result ≡ known_extent (slice_get layouts.now class) }
    ensures bounds { IfSome result (λ s. Measured (shown s) s) }
{
    let layout = layouts.get(class as usize)?;
    if layout.is_known {
        Some(layout.extent)
    } else {
        None
    }
}

// The size and the alignment of the objects of a type; `None` where the size passes the greatest.
fn measured(ty: &Ty, classes: &[ClassRec], layouts: &[ClassLayout]) -> Option<SizeAlign>
    requires in_order { InOrder (classes_of classes.now) }
    requires kept { HoldsKept (classes_of classes.now) layouts.now (shape_form ty.now.shape) }
    ensures { MatchOption result (GREATEST_SIZE < (extent_of (classes_of classes.now) (typ_of ty.now)).size) (λ s. Measured (extent_of (classes_of classes.now) (typ_of ty.now)) s) }
{
    // There are no arrays of no elements; one would have no size, however large the class is.
    if has_no_elements(&ty.shape) {
        return match size_align(ty, classes) {
            Ok(found) => Some(found),
            Err(_) => None,
        };
    }
    match held_class(&ty.shape) {
        Some(class) => scaled(&ty.shape, class_measured(layouts, class)?),
        None => scaled(&ty.shape, scalar_of(1)),
    }
}

/// The base, as the first item; `None` where it ends after the greatest size. The layouts say how large it is.
pub fn base_cursor(base: Option<u32>, layouts: &[ClassLayout]) -> Option<LayoutCursor>
    ensures { (at : ℕ → Extent) → BaseKept at layouts.now base → MatchOption result (GREATEST_SIZE < end_from 0 (base_items at base)) (λ r. Follows empty_cursor (base_items at base) r) }
{
    match base {
        Some(class) => append(no_items(), class_measured(layouts, class)?),
        None => Some(no_items()),
    }
}

/// The members after the cursor; `None` where they end after the greatest size.
pub fn with_members(
    alloc: Global,
    start: LayoutCursor,
    members: &[MemberRec],
    classes: &[ClassRec],
    layouts: &[ClassLayout],
) -> Result<Option<PlacedMembers>, AllocError>
    requires in_order { InOrder (classes_of classes.now) }
    requires kept { MembersKept (classes_of classes.now) layouts.now (map member_of members.now) }
    requires bounds { InBounds start }
    ensures { IfOk result (λ o. MatchOption o (GREATEST_SIZE < end_from start.end (member_extents (classes_of classes.now) (map member_of members.now))) (λ p. AreMembers start (member_extents (classes_of classes.now) (map member_of members.now)) p)) }
{
    let mut cursor = start;
    let mut offsets = Vec::new(alloc);
    for member in members {
        let Some(item) = measured(&member.ty, classes, layouts) else {
            return Ok(None);
        };
        let place = aligned_up(cursor.end, item.align);
        let Some(next) = append(cursor, item) else {
            return Ok(None);
        };
        offsets.push(place)?;
        cursor = next;
    }
    Ok(Some(PlacedMembers { cursor, offsets }))
}

// Where the items of a function's frame lie.

ghost use Rattle.std.specs.Prelude.{◌≡◌, ◌≤◌, ◌<◌, ◌+◌, ◌++◌, ◌∷◌, [], map, max, MatchOption, MatchResult, OnOk};
ghost use Rattle.cpp_types.specs.Typ.{typ_of, shape_form};
ghost use Rattle.cpp_types.specs.Class.{InOrder, classes_of};
ghost use Rattle.cpp_layout.specs.Layout.{extent_of, end_from, next_multiple, frame_size};
ghost use Rattle.cpp_layout.specs.Measured.{HoldsComplete};
ghost use Rattle.cpp_layout.specs.Frames.{AllComplete, IsPlaced, IsFrame, HasNoFrame};

use crate::cursor::aligned_up;
use crate::measures::measured;
use cpp_types::{ClassRec, Ty};
use std::alloc::{AllocError, Global};
use thiserror::Error;

/// The greatest size of a frame, in bytes.
pub const GREATEST_FRAME: u32 = 65_536;

/// Where the items of a frame lie.
#[derive(Debug, Drop)]
pub struct FrameRec {
    /// The offset of each item, in bytes.
    pub offsets: Vec<u32>,
    /// The size of the frame, in bytes: a multiple of 16, and at least 16.
    pub size: u32,
}

/// Why items have no frame.
#[derive(Debug, Drop, Error)]
pub enum FrameFault {
    /// The size passes 65,536 bytes.
    #[error("the frame passes 65536 bytes")]
    TooLarge,
    #[error("out of memory")]
    Memory,
}

// Where an item lies, and where it ends.
#[derive(Clone, Copy)]
pub struct PlacedItem {
    pub offset: u32,
    pub end: u32,
}

/// The frame of these items, one after another, each at the next multiple of its alignment.
///
/// Needs a list of classes in order, and each class that a value of an item's type holds to be
/// complete. A reference takes the size of a pointer. Answers `TooLarge` exactly where the frame's
/// size passes 65,536 bytes, unless memory is wanting before.
pub fn frame(alloc: Global, items: &[Ty], classes: &[ClassRec]) -> Result<FrameRec, FrameFault>
    requires in_order { InOrder (classes_of classes.now) }
    requires complete { AllComplete (classes_of classes.now) (map typ_of items.now) }
    ensures { MatchResult result (λ f. IsFrame (classes_of classes.now) (map typ_of items.now) f) (λ e. HasNoFrame (classes_of classes.now) (map typ_of items.now) e) }
{
    let mut offsets = Vec::new(alloc);
    let mut end = 0;
    for item in items {
        let Some(lies) = placed(end, item, classes) else {
            return Err(FrameFault::TooLarge);
        };
        let Ok(()) = put(&mut offsets, lies.offset) else {
            return Err(FrameFault::Memory);
        };
        end = lies.end;
    }
    Ok(FrameRec {
        offsets,
        size: whole_frame(end),
    })
}

// The offset and the end of an item after others that end at `end`; `None` where it ends after
// the greatest frame.
fn placed(end: u32, item: &Ty, classes: &[ClassRec]) -> Option<PlacedItem>
    requires in_order { InOrder (classes_of classes.now) }
    requires complete { HoldsComplete (classes_of classes.now) (shape_form item.now.shape) }
    requires end { end ≤ GREATEST_FRAME }
    ensures { MatchOption result (GREATEST_FRAME < end_from end (extent_of (classes_of classes.now) (typ_of item.now) ∷ [])) (λ p. IsPlaced end (extent_of (classes_of classes.now) (typ_of item.now)) p) }
{
    let found = measured(&item.shape, classes)?;
    let offset = aligned_up(end, found.align);
    let next = offset + found.size;
    if next > GREATEST_FRAME {
        return None;
    }
    Some(PlacedItem { offset, end: next })
}

// The size of a frame whose items end at `end`.
fn whole_frame(end: u32) -> u32
    requires { end ≤ GREATEST_FRAME }
    ensures size { result ≡ max 16 (next_multiple end 16) }
    ensures within { result ≤ GREATEST_FRAME }
{
    aligned_up(end, 16).max(16)
}

// Adds an element; want of memory changes nothing.
fn put(offsets: &mut Vec<u32>, offset: u32) -> Result<(), AllocError>
    ensures { OnOk result (offsets.new.items ≡ offsets.old.items ++ offset ∷ []) }
{
    offsets.push(offset)?;
    Ok(())
}

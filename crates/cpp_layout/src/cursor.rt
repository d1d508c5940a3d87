// Items one after another.

ghost use Rattle.std.specs.Prelude.{◌≡◌, ◌≤◌, ◌<◌, ◌+◌, ◌∷◌, [], max, MatchOption, List};
ghost use Rattle.cpp_layout.specs.Layout.{Extent, next_multiple, end_from};
ghost use Rattle.cpp_layout.specs.Measured.{Measured, InBounds, Follows, shown};

use crate::extents::{GREATEST_SIZE, SizeAlign};

/// How far items reach, in bytes, and their greatest alignment.
#[derive(Clone, Copy)]
pub struct LayoutCursor {
    pub end: u32,
    pub align: u32,
}

/// No items.
pub fn no_items() -> LayoutCursor
    ensures start { result ≡ record { end = 0; align = 1 } }
    ensures bounds { InBounds result }
{
    LayoutCursor { end: 0, align: 1 }
}

/// The least multiple of `align` that is not below `offset`.
pub fn aligned_up(offset: u32, align: u32) -> u32
    requires offset { offset ≤ GREATEST_SIZE }
    requires low { 1 ≤ align }
    requires high { align ≤ 16 }
    ensures value { result ≡ next_multiple offset align }
    ensures high { result < offset + align }
{
    (offset + (align - 1)) / align * align
}

/// The cursor with one more item; `None` where it ends past the greatest size.
pub fn append(cursor: LayoutCursor, item: SizeAlign) -> Option<LayoutCursor>
    requires bounds { InBounds cursor }
    requires item { Measured (shown item) item }
    ensures { MatchOption result (GREATEST_SIZE < end_from cursor.end (shown item ∷ [])) (λ r. Follows cursor (shown item ∷ []) r) }
{
    let end = aligned_up(cursor.end, item.align) + item.size;
    if end > GREATEST_SIZE {
        return None;
    }
    Some(LayoutCursor {
        end,
        align: cursor.align.max(item.align),
    })
}

/// What a class takes whose items are the cursor; `None` where its size passes the greatest.
pub fn whole_of(cursor: LayoutCursor) -> Option<SizeAlign>
    requires { InBounds cursor }
    ensures { let e : Extent = record { size = max 1 (next_multiple cursor.end cursor.align); align = cursor.align } in MatchOption result (GREATEST_SIZE < e.size) (λ s. Measured e s) }
{
    let size = aligned_up(cursor.end, cursor.align).max(1);
    if size > GREATEST_SIZE {
        return None;
    }
    Some(SizeAlign {
        size,
        align: cursor.align,
    })
}

// How the objects of one class are laid out.

ghost use Rattle.std.specs.Prelude.{◌≡◌, ◌<◌, true, Some, is_some, slice_get, IfOk, MatchOption};
ghost use Rattle.cpp_types.specs.Class.{Class, InOrder, class_of, classes_of};
ghost use Rattle.cpp_layout.specs.Layout.{class_extent};
ghost use Rattle.cpp_layout.specs.declared.extents.TheConstants.{GREATEST_SIZE};
ghost use Rattle.elab_ctx.specs.Layouts.{layout_of, layout_in, unlaid as unlaid_of};
ghost use Rattle.class_layouts.specs.Kept.{Serves};

use crate::members::{base_cursor, with_members};
use cpp_layout::cursor::whole_of;
use cpp_layout::extents::scalar_of;
use cpp_layout::pointers::with_pointer;
use cpp_types::ClassRec;
use elab_ctx::ClassLayout;
use std::alloc::{AllocError, Global};

// That of a class which is not complete, or too large.
fn unlaid(alloc: Global) -> ClassLayout
    ensures { layout_of result ≡ unlaid_of }
{
    ClassLayout {
        is_known: false,
        extent: scalar_of(1),
        offsets: Vec::new(alloc),
    }
}

// That of a complete class; `None` where its objects are too large.
fn complete_layout(
    alloc: Global,
    class: u32,
    found: &ClassRec,
    classes: &[ClassRec],
    layouts: &[ClassLayout],
) -> Result<Option<ClassLayout>, AllocError>
    requires in_order { InOrder (classes_of classes.now) }
    requires found { slice_get (classes_of classes.now) class ≡ Some (class_of found.now) }
    requires complete { is_some found.now.complete ≡ true }
    requires serves { Serves (classes_of classes.now) layouts.now class }
    ensures { IfOk result (λ o. MatchOption o (GREATEST_SIZE < (class_extent (classes_of classes.now) class).size) (λ l. layout_of l ≡ layout_in (classes_of classes.now) class (class_of found.now))) }
{
    let Some(base) = base_cursor(found.base, layouts) else {
        return Ok(None);
    };
    let Some(head) = with_pointer(base, classes, class) else {
        return Ok(None);
    };
    let Some(placed) = with_members(alloc, head, &found.members, classes, layouts)? else {
        return Ok(None);
    };
    let Some(extent) = whole_of(placed.cursor) else {
        return Ok(None);
    };
    Ok(Some(ClassLayout {
        is_known: true,
        extent,
        offsets: placed.offsets,
    }))
}

/// How the objects of a class of the list are laid out.
///
/// Needs a list of classes in order, and the layouts of the other complete classes; takes a step for each member.
pub fn class_layout(
    alloc: Global,
    classes: &[ClassRec],
    layouts: &[ClassLayout],
    class: u32,
) -> Result<ClassLayout, AllocError>
    requires in_order { InOrder (classes_of classes.now) }
    requires serves { Serves (classes_of classes.now) layouts.now class }
    ensures { IfOk result (λ l. (c : Class) → slice_get (classes_of classes.now) class ≡ Some c → layout_of l ≡ layout_in (classes_of classes.now) class c) }
{
    let Some(found) = classes.get(class as usize) else {
        return Ok(unlaid(alloc));
    };
    if found.complete.is_none() {
        return Ok(unlaid(alloc));
    }
    match complete_layout(alloc, class, found, classes, layouts)? {
        Some(layout) => Ok(layout),
        None => Ok(unlaid(alloc)),
    }
}

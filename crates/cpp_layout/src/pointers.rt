// Which classes have a class pointer.

ghost use Rattle.std.specs.Prelude.{◌≡◌, ◌≤◌, ◌<◌, map, MatchOption};
ghost use Rattle.std.specs.List.{list_any};
ghost use Rattle.cpp_types.specs.Class.{classes_of, base_of, completion_of, function_of};
ghost use Rattle.cpp_types.specs.Conversion.{chain};
ghost use Rattle.cpp_layout.specs.Layout.{is_virtual_function, has_virtual, has_class_pointer, pointer_items, end_from, greatest_align};
ghost use Rattle.cpp_layout.specs.Measured.{InBounds, Follows};
ghost use Rattle.cpp_layout.specs.declared.extents.TheConstants.{GREATEST_SIZE};

use crate::cursor::{LayoutCursor, append};
use crate::extents::scalar_of;
use cpp_types::{ClassRec, FuncRec};

// Whether one of the functions is virtual.
fn has_virtual_one(functions: &[FuncRec]) -> bool
    ensures { result ≡ list_any is_virtual_function (map function_of functions.now) }
{
    for function in functions {
        if function.is_virtual {
            return true;
        }
    }
    false
}

// Whether a function of the class itself is virtual.
fn has_virtual_function(classes: &[ClassRec], class: u32) -> bool
    ensures { result ≡ has_virtual (classes_of classes.now) class }
{
    match classes.get(class as usize) {
        Some(found) => has_virtual_one(&found.functions),
        None => false,
    }
}

// The base of a complete class.
fn base_of_complete(classes: &[ClassRec], class: u32) -> Option<u32>
    ensures { result ≡ base_of (classes_of classes.now) class }
{
    let record = classes.get(class as usize)?;
    match record.complete {
        Some(_) => record.base,
        None => None,
    }
}

// How many classes were completed before this one.
fn completion(classes: &[ClassRec], class: u32) -> Option<u32>
    ensures { result ≡ completion_of (classes_of classes.now) class }
{
    classes.get(class as usize)?.complete
}

// Whether one of the bases, of which there are at most `most`, has a virtual function.
fn has_virtual_base(classes: &[ClassRec], class: u32, most: u32) -> bool
    ensures { result ≡ list_any (has_virtual (classes_of classes.now)) (chain most (classes_of classes.now) class) }
{
    let mut below = class;
    for _passed in 0..most {
        let Some(base) = base_of_complete(classes, below) else {
            return false;
        };
        if has_virtual_function(classes, base) {
            return true;
        }
        below = base;
    }
    false
}

/// Whether the class is the first of its chain of bases with a virtual function: then its objects have a class pointer
/// behind the base.
pub fn has_pointer(classes: &[ClassRec], class: u32) -> bool
    ensures { result ≡ has_class_pointer (classes_of classes.now) class }
{
    if !has_virtual_function(classes, class) {
        return false;
    }
    match completion(classes, class) {
        Some(most) => !has_virtual_base(classes, class, most),
        None => true,
    }
}

/// The cursor with the class pointer after it, where the class has one; `None` where it ends after
/// the greatest size.
pub fn with_pointer(cursor: LayoutCursor, classes: &[ClassRec], class: u32) -> Option<LayoutCursor>
    requires { InBounds cursor }
    ensures { MatchOption result (GREATEST_SIZE < end_from cursor.end (pointer_items (has_class_pointer (classes_of classes.now) class))) (λ r. Follows cursor (pointer_items (has_class_pointer (classes_of classes.now) class)) r) }
{
    if has_pointer(classes, class) {
        append(cursor, scalar_of(8))
    } else {
        Some(cursor)
    }
}

/// The alignment of the class pointer, and 1 where the class has none.
pub fn pointer_align(classes: &[ClassRec], class: u32) -> u32
    ensures value { result ≡ greatest_align (pointer_items (has_class_pointer (classes_of classes.now) class)) }
    ensures low { 1 ≤ result }
    ensures high { result ≤ 8 }
{
    if has_pointer(classes, class) { 8 } else { 1 }
}

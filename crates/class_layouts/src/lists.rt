// Lists of classes with the layout of each, where they change.

ghost use Rattle.std.specs.Prelude.{◌≡◌, ◌<◌, ◌+◌, ◌≤◌, ◌++◌, ◌∷◌, [], true, None, Some, is_ok, is_some, map, length, take, slice_get, slice_set, if◌then◌else◌};
ghost use Rattle.cpp_types.specs.Class.{classes_of, class_of, completion_of};
ghost use Rattle.cpp_types.specs.Order.{all_consistent};
ghost use Rattle.elab_ctx.specs.Layouts.{layout_of, layouts_of, completed_in};

use crate::layout::class_layout;
use cpp_types::ClassRec;
use elab_ctx::ClassLayout;
use std::alloc::{AllocError, Global};
use std::mem;

// Puts a record in the place of another, which is the answer.
fn exchanged(classes: &mut Vec<ClassRec>, class: u32, class_record: ClassRec) -> ClassRec
    requires { class < length classes.old.items }
    ensures put { classes.new.items ≡ slice_set classes.old.items class class_record }
    ensures before { slice_get classes.old.items class ≡ Some result }
{
    mem::replace(&mut classes[class as usize], class_record)
}

/// Puts a class in the place of one that is not complete, and finds its layout.
pub fn put_laid_out(
    alloc: Global,
    classes: &mut Vec<ClassRec>,
    layouts: &mut Vec<ClassLayout>,
    class: u32,
    class_record: ClassRec,
) -> Result<(), AllocError>
    requires there { class < length classes.old.items }
    requires declared { completion_of (classes_of classes.old.items) class ≡ None }
    requires in_order { all_consistent (classes_of classes.old.items) ≡ true }
    requires still { all_consistent (slice_set (classes_of classes.old.items) class (class_of class_record)) ≡ true }
    requires laid_out { map layout_of layouts.old.items ≡ layouts_of (classes_of classes.old.items) }
    ensures put { classes.new.items ≡ (if is_ok result then slice_set classes.old.items class class_record else classes.old.items) }
    ensures laid_out { map layout_of layouts.new.items ≡ layouts_of (classes_of classes.new.items) }
{
    let before = exchanged(classes, class, class_record);
    match class_layout(alloc, classes, layouts, class) {
        Ok(layout) => {
            layouts[class as usize] = layout;
            Ok(())
        }
        Err(fault) => {
            classes[class as usize] = before;
            Err(fault)
        }
    }
}

// One more layout, that of the last class.
fn add_layout(
    alloc: Global,
    classes: &[ClassRec],
    layouts: &mut Vec<ClassLayout>,
    class: u32,
) -> Result<(), AllocError>
    requires last { length classes.now ≡ class + 1 }
    requires in_order { all_consistent (classes_of classes.now) ≡ true }
    requires others { all_consistent (take class (classes_of classes.now)) ≡ true }
    requires laid_out { map layout_of layouts.old.items ≡ layouts_of (take class (classes_of classes.now)) }
    ensures { map layout_of layouts.new.items ≡ (if is_ok result then layouts_of (classes_of classes.now) else layouts_of (take class (classes_of classes.now))) }
{
    let layout = class_layout(alloc, classes, layouts, class)?;
    layouts.push(layout)?;
    Ok(())
}

/// Puts a class behind the others, and finds its layout.
pub fn push_laid_out(
    alloc: Global,
    classes: &mut Vec<ClassRec>,
    layouts: &mut Vec<ClassLayout>,
    class_record: ClassRec,
) -> Result<(), AllocError>
    requires in_order { all_consistent (classes_of classes.old.items) ≡ true }
    requires still { all_consistent (classes_of classes.old.items ++ class_of class_record ∷ []) ≡ true }
    requires laid_out { map layout_of layouts.old.items ≡ layouts_of (classes_of classes.old.items) }
    ensures put { classes.new.items ≡ (if is_ok result then classes.old.items ++ class_record ∷ [] else classes.old.items) }
    ensures laid_out { map layout_of layouts.new.items ≡ layouts_of (classes_of classes.new.items) }
{
    let Ok(class) = u32::try_from(classes.len()) else {
        return Err(AllocError);
    };
    classes.push(class_record)?;
    match add_layout(alloc, classes, layouts, class) {
        Ok(()) => Ok(()),
        Err(fault) => {
            let _taken = classes.pop();
            Err(fault)
        }
    }
}

/// 1 for a class that is complete.
pub fn one_if_complete(found: &ClassRec) -> u32
    ensures { result ≡ (if is_some found.now.complete then 1 else 0) }
{
    if found.complete.is_some() { 1 } else { 0 }
}

/// How many classes are complete where `completed` were, and some are cut off.
pub fn without(completed: u32, cut: &[ClassRec]) -> u32
    requires { completed_in (classes_of cut.now) ≤ completed }
    ensures { result + completed_in (classes_of cut.now) ≡ completed }
{
    let mut left = completed;
    for found in cut {
        left -= one_if_complete(found);
    }
    left
}

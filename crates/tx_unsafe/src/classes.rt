// Which classes have a volatile part.

ghost use Rattle.std.specs.Prelude.{◌≡◌, ◌<◌, ◌↔◌, ℕ, true, false, cond, IfOk, IsTrue, length, map, slice_set};
ghost use Rattle.std.specs.List.{list_any};
ghost use Rattle.cpp_types.specs.Class.{classes_of, class_of, member_of};
ghost use Rattle.tx_unsafe.specs.Volatile.{is_volatile_member, has_volatile_part_by, has_volatile_part, marked};
ghost use Rattle.tx_unsafe.specs.ClassMarks.{count_marked, has_new_part, SoundClasses, ClosedClasses};

use crate::volatility::{has_volatile, is_marked};
use cpp_types::{ClassRec, MemberRec};
use std::alloc::{AllocError, Global};

fn has_volatile_member(members: &[MemberRec], marks: &[bool]) -> bool
    ensures { result ≡ list_any (is_volatile_member (marked marks.now)) (map member_of members.now) }
{
    for member in members {
        if has_volatile(&member.ty, marks) {
            return true;
        }
    }
    false
}

// Whether a member or the base is volatile or of a marked class.
fn has_marked_part(class_record: &ClassRec, marks: &[bool]) -> bool
    ensures { result ≡ has_volatile_part_by (marked marks.now) (class_of class_record.now) }
{
    has_volatile_member(&class_record.members, marks) || is_marked(class_record.base, marks)
}

// Whether a class without a mark gets one.
fn gets_mark(classes: &[ClassRec], marks: &[bool], i: usize) -> bool
    requires within { i < length classes.now }
    requires length { length marks.now ≡ length classes.now }
    ensures { result ≡ has_new_part (classes_of classes.now) marks.now i }
{
    !marks[i] && has_marked_part(&classes[i], marks)
}

// Marks a class that gets a mark, and tells whether it does.
fn mark(classes: &[ClassRec], marks: &mut Vec<bool>, i: usize) -> bool
    requires within { i < length classes.now }
    requires length { length marks.old.items ≡ length classes.now }
    ensures is { result ≡ has_new_part (classes_of classes.now) marks.old.items i }
    ensures marks { marks.new.items ≡ cond result (slice_set marks.old.items i true) marks.old.items }
{
    let is_new = gets_mark(classes, marks, i);
    if is_new {
        marks[i] = true;
    }
    is_new
}

// Marks each class that gets a mark, in one round, and tells whether one did.
fn mark_round(classes: &[ClassRec], marks: &mut Vec<bool>) -> bool
    requires length { length marks.old.items ≡ length classes.now }
    requires sound { SoundClasses (classes_of classes.now) marks.old.items }
    ensures length { length marks.new.items ≡ length classes.now }
    ensures sound { SoundClasses (classes_of classes.now) marks.new.items }
    ensures closed { result ≡ false → ClosedClasses (classes_of classes.now) marks.new.items (length classes.now) }
    ensures more { result ≡ true → count_marked marks.old.items < count_marked marks.new.items }
{
    let mut changed = false;
    for i in 0..classes.len() {
        changed |= mark(classes, marks, i);
    }
    changed
}

/// For each class whether it has a volatile part. The classes are gone through until nothing changes: once more than
/// a class holds one that stands behind it in the list, and that again one behind it, and so on.
pub fn volatile_classes(alloc: Global, classes: &[ClassRec]) -> Result<Vec<bool>, AllocError>
    ensures { IfOk result (λ marks. (n : ℕ) → marked marks.items n ≡ has_volatile_part (classes_of classes.now) n) }
{
    let mut marks = Vec::from_elem(alloc, false, classes.len())?;
    'rounds: loop {
        if !mark_round(classes, &mut marks) {
            return Ok(marks);
        }
    }
}

// Sizes of objects, and where their members lie.

ghost use Rattle.std.specs.Prelude.{◌≡◌, true, IsSome};
ghost use Rattle.cpp_tree.specs.cpp_types.Typ.{shape_form};
ghost use Rattle.cpp_tree.specs.cpp_types.Class.{classes_of, completion_of};
ghost use Rattle.cpp_tree.specs.cpp_types.Order.{all_consistent};
ghost use Rattle.tree_dump.specs.Sized.{is_whole as is_whole_in};

use cpp_tree::below::{
    ClassRec, Shape, SizeAlign, Ty, held_class, is_in_order, offset, record_at, size_align,
};
use std::alloc::AllocError;

/// Classes that are in order, so that their objects have sizes.
#[derive(Clone, Copy)]
pub struct Ordered<'a> {
    pub list: &'a [ClassRec],
    pub ghost in_order: { all_consistent (classes_of list.now) ≡ true },
}

/// Classes, if they are in order.
pub fn in_order(classes: &[ClassRec]) -> Option<Ordered<'_>> {
    if !is_in_order(classes) {
        return None;
    }
    Some(Ordered { list: classes })
}

// How many classes were completed before a class.
fn completion(classes: &[ClassRec], class: u32) -> Option<u32>
    ensures { result ≡ completion_of (classes_of classes.now) class }
{
    classes.get(class as usize)?.complete
}

// Whether the class that values of a type hold, if they hold one, is complete.
fn is_whole(classes: &[ClassRec], shape: &Shape) -> bool
    ensures { result ≡ is_whole_in (classes_of classes.now) (shape_form shape.now) }
{
    match held_class(shape) {
        Some(class) => completion(classes, class).is_some(),
        None => true,
    }
}

/// The size and the alignment of objects of a type. One whose class is not complete, and one that passes the greatest
/// size, stand in no typed program; here they count as want of memory.
pub fn size_of(classes: Ordered<'_>, ty: &Ty) -> Result<SizeAlign, AllocError> {
    if !is_whole(classes.list, &ty.shape) {
        return Err(AllocError);
    }
    match size_align(ty, classes.list) {
        Ok(found) => Ok(found),
        Err(_) => Err(AllocError),
    }
}

/// Where the member with an index lies in objects of a class.
pub fn offset_of(classes: Ordered<'_>, class: u32, index: u32) -> Result<u32, AllocError> {
    let Some(found) = record_at(classes.list, class) else {
        return Err(AllocError);
    };
    if index as usize >= found.members.len() {
        return Err(AllocError);
    }
    let Some(_number) = found.complete else {
        return Err(AllocError);
    };
    let whole = Ty {
        shape: Shape::Class(class),
        is_const: false,
        is_volatile: false,
    };
    match size_align(&whole, classes.list) {
        Ok(_) => Ok(offset(classes.list, class, index)),
        Err(_) => Err(AllocError),
    }
}

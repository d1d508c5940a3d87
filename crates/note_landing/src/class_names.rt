//! What classes are spelled as. A type that is thrown is a class, or is spelled as none is: so a row by a class's spelling takes that class alone.

ghost use Rattle.std.specs.Prelude.{◌≡◌, ◌||◌, ◌&&◌, IfOk};
ghost use Rattle.cpp_tree.specs.cpp_types.Class.{classes_of};
ghost use Rattle.cpp_tree.specs.cpp_types.Typ.{class as of_class, typ_of, shape_form};
ghost use Rattle.body_check.specs.Cases.{spelled};
ghost use Rattle.image_links.specs.Books.{spells_class, names_class, is_class, is_told_apart};

use cpp_tree::below::{ClassRec, Shape, Ty, copy, is_name, spell};
use std::alloc::{AllocError, Global};

// The spelling of a type of this shape, without qualifiers.
fn shape_text(alloc: Global, shape: Shape, classes: &[ClassRec]) -> Result<Vec<u8>, AllocError>
    ensures { IfOk result (λ v. v.items ≡ spelled (classes_of classes.now) (shape_form shape)) }
{
    let plain = Ty {
        shape,
        is_const: false,
        is_volatile: false,
    };
    spell(alloc, &plain, classes)
}

/// The spelling of a class.
pub(crate) fn class_text(
    alloc: Global,
    class: u32,
    classes: &[ClassRec],
) -> Result<Vec<u8>, AllocError>
    ensures { IfOk result (λ v. v.items ≡ spelled (classes_of classes.now) (of_class class)) }
{
    shape_text(alloc, Shape::Class(class), classes)
}

/// A type's spelling without its own qualifiers.
pub(crate) fn plain_text(
    alloc: Global,
    ty: &Ty,
    classes: &[ClassRec],
) -> Result<Vec<u8>, AllocError>
    ensures { IfOk result (λ v. v.items ≡ spelled (classes_of classes.now) (shape_form ty.now.shape)) }
{
    let copied = copy(alloc, ty)?;
    shape_text(alloc, copied.shape, classes)
}

// Whether one of them is true.
fn either(left: bool, right: bool) -> bool
    ensures { result ≡ (left || right) }
{
    left || right
}

/// Whether both are true.
pub(crate) fn both(left: bool, right: bool) -> bool
    ensures { result ≡ (left && right) }
{
    left && right
}

// Whether one of the first classes, so many, is spelled so.
fn spells_class(
    alloc: Global,
    classes: &[ClassRec],
    count: u32,
    text: &[u8],
) -> Result<bool, AllocError>
    ensures { IfOk result (λ b. b ≡ spells_class (classes_of classes.now) count text.now) }
{
    if count == 0 {
        return Ok(false);
    }
    let class = count - 1;
    let own = class_text(alloc, class, classes)?;
    let found = spells_class(alloc, classes, class, text)?;
    Ok(either(is_name(text, &own), found))
}

/// Whether a class is spelled so, and `void` is not.
pub(crate) fn names_class(
    alloc: Global,
    classes: &[ClassRec],
    text: &[u8],
) -> Result<bool, AllocError>
    ensures { IfOk result (λ b. b ≡ names_class (classes_of classes.now) text.now) }
{
    let Ok(count) = u32::try_from(classes.len()) else {
        return Err(AllocError);
    };
    let nothing = shape_text(alloc, Shape::Void, classes)?;
    let found = spells_class(alloc, classes, count, text)?;
    Ok(both(!is_name(text, &nothing), found))
}

// Whether a shape is that of a class.
fn is_class(shape: &Shape, classes: &[ClassRec]) -> bool
    ensures { result ≡ is_class (classes_of classes.now) (shape_form shape.now) }
{
    match shape {
        Shape::Class(class) => (*class as usize) < classes.len(),
        Shape::Void | Shape::Int(_) | Shape::Enum { .. } | Shape::Null => false,
        Shape::Ptr(_) | Shape::Ref(_) | Shape::Array(..) | Shape::Func(_) => false,
        Shape::Closure(_) | Shape::TxEx(_) => false,
    }
}

/// Whether a type is a class, or is spelled as none is.
pub(crate) fn is_told_apart(
    alloc: Global,
    classes: &[ClassRec],
    ty: &Ty,
) -> Result<bool, AllocError>
    ensures { IfOk result (λ b. b ≡ is_told_apart (classes_of classes.now) (typ_of ty.now)) }
{
    let text = plain_text(alloc, ty, classes)?;
    let named = names_class(alloc, classes, &text)?;
    Ok(either(is_class(&ty.shape, classes), !named))
}

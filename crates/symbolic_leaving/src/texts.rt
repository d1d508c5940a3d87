//! Types of exceptions and handlers by their spellings.

ghost use Rattle.std.specs.Prelude.{◌≡◌, false, IfOk, unwrap_or};
ghost use Rattle.std.specs.List.{list_any};
ghost use Rattle.cpp_tree.specs.cpp_types.Typ.{typ_of, shape_form, class as of_class};
ghost use Rattle.cpp_tree.specs.cpp_types.Class.{classes_of, base_of as base_found, completion_of};
ghost use Rattle.cpp_tree.specs.cpp_types.Conversion.{is_object_form, chain};
ghost use Rattle.cpp_tree.specs.cpp_types.Spelling.{form_spelling};
ghost use Rattle.cpp_tree.specs.Trees.{typ_in};
ghost use Rattle.src_mean.specs.Exceptions.{is_object_typ, catches as catches_typ, catches_form, thrown_typ};
ghost use Rattle.src_bind.specs.Bounds.{given};
ghost use Rattle.src_frames.specs.Bounds.{tree_of};
ghost use Rattle.src_frames.specs.Texts.{is_spelled, class_in};
ghost use Rattle.symbolic_terms.specs.Words.{type_in};
ghost use Rattle.symbolic_leaving.specs.Source.{types_at};

use crate::source::Source;
use cpp_tree::below::{ClassRec, Shape, Ty, copy, is_name, same, spell};
use src_frames::trees::{TreeAt, type_of};
use std::alloc::{AllocError, Global};
use symbolic_terms::refusal::Refusal;

/// Whether an exception of the type with this number is made from an object: it is a class, or `std::tx_exception`.
pub fn is_object(source: &Source<'_>, number: u32) -> bool
    ensures { result ≡ is_object_typ (types_at source.now number) }
{
    match source.types.get(number as usize) {
        Some(ty) => is_object_shape(&ty.shape),
        None => false,
    }
}

// Whether the shape is that of a class or of `std::tx_exception`.
fn is_object_shape(shape: &Shape) -> bool
    ensures { result ≡ is_object_form (shape_form shape.now) }
{
    match shape {
        Shape::Class(_) | Shape::Closure(_) | Shape::TxEx(_) => true,
        Shape::Void | Shape::Int(_) | Shape::Enum { .. } | Shape::Null => false,
        Shape::Ptr(_) | Shape::Ref(_) | Shape::Array(..) | Shape::Func(_) => false,
    }
}

// The type without its own qualifiers.
fn plain(alloc: Global, ty: &Ty) -> Result<Ty, AllocError>
    ensures { IfOk result (λ t. typ_of t ≡ thrown_typ (typ_of ty.now)) }
{
    let copied = copy(alloc, ty)?;
    Ok(Ty {
        shape: copied.shape,
        is_const: false,
        is_volatile: false,
    })
}

// The number of this type among these.
fn told(types: &[Ty], ty: &Ty) -> Result<u32, Refusal>
    ensures { IfOk result (λ n. type_in types.now n ≡ typ_of ty.now) }
{
    for (i, one) in types.iter().enumerate() {
        if same(one, ty) {
            let Ok(number) = u32::try_from(i) else {
                return Err(Refusal::Beyond);
            };
            return Ok(number);
        }
    }
    Err(Refusal::Untold)
}

/// The number of the type of what is thrown, as it was told; the type of a word is `void`.
pub fn thrown_type(alloc: Global, source: &Source<'_>, thrown: TreeAt) -> Result<u32, Refusal>
    ensures { IfOk result (λ n. types_at source.now n ≡ thrown_typ (typ_in (tree_of source.now.bound.now thrown))) }
{
    let own = own_type(alloc, source, thrown)?;
    told(source.types, &own)
}

// The type of what is thrown.
fn own_type(alloc: Global, source: &Source<'_>, thrown: TreeAt) -> Result<Ty, AllocError>
    ensures { IfOk result (λ t. typ_of t ≡ thrown_typ (typ_in (tree_of source.now.bound.now thrown))) }
{
    match type_of(source.bound, thrown) {
        Some(ty) => plain(alloc, ty),
        None => Ok(Ty {
            shape: Shape::Void,
            is_const: false,
            is_volatile: false,
        }),
    }
}

/// A type's spelling without its own qualifiers.
pub fn plain_text(alloc: Global, ty: &Ty, classes: &[ClassRec]) -> Result<Vec<u8>, AllocError>
    ensures { IfOk result (λ v. v.items ≡ form_spelling (classes_of classes.now) (shape_form ty.now.shape) false false) }
{
    let copied = copy(alloc, ty)?;
    let plain = Ty {
        shape: copied.shape,
        is_const: false,
        is_volatile: false,
    };
    spell(alloc, &plain, classes)
}

// The spelling of a class.
fn class_text(alloc: Global, class: u32, classes: &[ClassRec]) -> Result<Vec<u8>, AllocError>
    ensures { IfOk result (λ v. v.items ≡ form_spelling (classes_of classes.now) (of_class class) false false) }
{
    let plain = Ty {
        shape: Shape::Class(class),
        is_const: false,
        is_volatile: false,
    };
    spell(alloc, &plain, classes)
}

// The base of a complete class.
fn base_of(classes: &[ClassRec], class: u32) -> Option<u32>
    ensures { result ≡ base_found (classes_of classes.now) class }
{
    let record = classes.get(class as usize)?;
    match record.complete {
        Some(_) => record.base,
        None => None,
    }
}

// How many classes were completed before this one; 0 where it is not complete.
fn completion(classes: &[ClassRec], class: u32) -> u32
    ensures { result ≡ unwrap_or (completion_of (classes_of classes.now) class) 0 }
{
    match classes.get(class as usize) {
        Some(record) => match record.complete {
            Some(number) => number,
            None => 0,
        },
        None => 0,
    }
}

// Whether one of the bases of a class, of which there are at most `most`, has this spelling.
fn has_base(
    alloc: Global,
    classes: &[ClassRec],
    class: u32,
    most: u32,
    text: &[u8],
) -> Result<bool, AllocError>
    ensures { IfOk result (λ b. b ≡ list_any (is_spelled (classes_of classes.now) text.now) (chain most (classes_of classes.now) class)) }
{
    let mut below = class;
    for _passed in 0..most {
        let Some(base) = base_of(classes, below) else {
            return Ok(false);
        };
        let spelled = class_text(alloc, base, classes)?;
        if is_name(text, &spelled) {
            return Ok(true);
        }
        below = base;
    }
    Ok(false)
}

// The class that a shape is.
fn class_of(shape: &Shape) -> Option<u32>
    ensures { result ≡ class_in (shape_form shape.now) }
{
    match shape {
        Shape::Class(class) => Some(*class),
        Shape::Void | Shape::Int(_) | Shape::Enum { .. } | Shape::Null => None,
        Shape::Ptr(_) | Shape::Ref(_) | Shape::Array(..) | Shape::Func(_) => None,
        Shape::Closure(_) | Shape::TxEx(_) => None,
    }
}

// Whether a handler of this type catches an exception of that type: it is that type, or a base of it.
fn catches_type(
    alloc: Global,
    classes: &[ClassRec],
    ty: &Ty,
    thrown: &Ty,
) -> Result<bool, AllocError>
    ensures { IfOk result (λ b. b ≡ catches_form (classes_of classes.now) (shape_form ty.now.shape) (shape_form thrown.now.shape)) }
{
    let text = plain_text(alloc, ty, classes)?;
    let own = plain_text(alloc, thrown, classes)?;
    let words = text.as_slice();
    let others = own.as_slice();
    if is_name(words, others) {
        return Ok(true);
    }
    let Some(class) = class_of(&thrown.shape) else {
        return Ok(false);
    };
    let most = completion(classes, class);
    let found = has_base(alloc, classes, class, most, words)?;
    Ok(found)
}

/// Whether a handler catches an exception of this type (C++14 15.3).
pub fn catches(
    alloc: Global,
    source: &Source<'_>,
    handler: TreeAt,
    thrown: &Ty,
) -> Result<bool, AllocError>
    ensures { IfOk result (λ b. b ≡ catches_typ (classes_of (given source.now.bound.now).program.classes.items) (typ_in (tree_of source.now.bound.now handler)) (typ_of thrown.now)) }
{
    let classes = source.bound.program().classes.as_slice();
    match type_of(source.bound, handler) {
        Some(ty) => caught_by(alloc, classes, ty, thrown),
        None => Ok(true),
    }
}

// Whether a handler of this declared type catches an exception of that type.
fn caught_by(alloc: Global, classes: &[ClassRec], ty: &Ty, thrown: &Ty) -> Result<bool, AllocError>
    ensures { IfOk result (λ b. b ≡ catches_typ (classes_of classes.now) (typ_of ty.now) (typ_of thrown.now)) }
{
    match &ty.shape {
        Shape::Void => Ok(true),
        Shape::Ref(inner) => catches_type(alloc, classes, inner, thrown),
        Shape::Int(_) | Shape::Enum { .. } | Shape::Null => {
            catches_type(alloc, classes, ty, thrown)
        }
        Shape::Ptr(_) | Shape::Array(..) | Shape::Func(_) => {
            catches_type(alloc, classes, ty, thrown)
        }
        Shape::Class(_) | Shape::Closure(_) | Shape::TxEx(_) => {
            catches_type(alloc, classes, ty, thrown)
        }
    }
}

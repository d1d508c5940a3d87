//! Types as texts: those of different units are one type exactly where their spellings are equal.

ghost use Rattle.std.specs.Prelude.{◌≡◌, false, [], IfOk, MatchOption, unwrap_or};
ghost use Rattle.std.specs.List.{list_any};
ghost use Rattle.cpp_tree.specs.cpp_types.Typ.{typ_of, signature_of, shape_form, class as of_class};
ghost use Rattle.cpp_tree.specs.cpp_types.Class.{classes_of, base_of as base_found, completion_of};
ghost use Rattle.cpp_tree.specs.cpp_types.Conversion.{is_object_form, chain};
ghost use Rattle.cpp_tree.specs.cpp_types.Spelling.{form_spelling, function_spelling};
ghost use Rattle.cpp_tree.specs.Trees.{typ_in};
ghost use Rattle.src_mean.specs.Exceptions.{is_object_typ, cancels as cancels_typ, cancels_form, catches as catches_typ, catches_form, form_in, thrown_typ};
ghost use Rattle.src_mean.specs.Links.{unsafe as without_safety};
ghost use Rattle.src_mean.specs.Source.{called_signature, signature_in};
ghost use Rattle.src_bind.specs.Bounds.{given};
ghost use Rattle.src_frames.specs.Bounds.{tree_of};
ghost use Rattle.src_frames.specs.Texts.{no_signature, function_in, is_spelled, class_in};

use crate::trees::{TreeAt, type_of};
use cpp_tree::below::{ClassRec, FnTy, Shape, Ty, copy, is_name, spell};
use src_bind::Bound;
use src_bind::infos::type_text;
use std::alloc::{AllocError, Global};

/// Whether an exception of this type is made from an object: it is a class, or `std::tx_exception`.
pub fn is_object(bound: &Bound<'_>, thrown: TreeAt) -> bool
    ensures { result ≡ is_object_typ (typ_in (tree_of bound.now thrown)) }
{
    match type_of(bound, thrown) {
        Some(ty) => is_object_shape(&ty.shape),
        None => false,
    }
}

// Whether the shape is that of a class or of `std::tx_exception`.
fn is_object_shape(shape: &Shape) -> bool
    ensures { result ≡ is_object_form (shape_form shape.now) }
{
    match shape {
        Shape::Class(_) | Shape::Closure(_) | Shape::TxEx(_) => true,
        Shape::Void | Shape::Int(_) | Shape::Enum { .. } | Shape::Null => false,
        Shape::Ptr(_) | Shape::Ref(_) | Shape::Array(..) | Shape::Func(_) => false,
    }
}

/// Whether the type of what was thrown supports cancellation (the TS, [except.throw]).
pub fn cancels(bound: &Bound<'_>, thrown: TreeAt) -> bool
    ensures { result ≡ cancels_typ (typ_in (tree_of bound.now thrown)) }
{
    match type_of(bound, thrown) {
        Some(ty) => is_cancelling(&ty.shape),
        None => false,
    }
}

// Whether the shape is that of `std::tx_exception`.
fn is_cancelling(shape: &Shape) -> bool
    ensures { result ≡ cancels_form (shape_form shape.now) }
{
    match shape {
        Shape::TxEx(_) => true,
        Shape::Void | Shape::Int(_) | Shape::Enum { .. } | Shape::Null => false,
        Shape::Ptr(_) | Shape::Ref(_) | Shape::Array(..) | Shape::Func(_) => false,
        Shape::Class(_) | Shape::Closure(_) => false,
    }
}

// The function type that a pointer of this type points to.
fn called(ty: &Ty) -> Option<&FnTy>
    ensures { MatchOption result (signature_in (shape_form ty.now.shape) ≡ no_signature) (λ f. signature_in (shape_form ty.now.shape) ≡ signature_of f.now) }
{
    match &ty.shape {
        Shape::Ptr(pointee) => function_of(&pointee.shape),
        Shape::Void | Shape::Int(_) | Shape::Enum { .. } | Shape::Null => None,
        Shape::Ref(_) | Shape::Array(..) | Shape::Func(_) | Shape::TxEx(_) => None,
        Shape::Class(_) | Shape::Closure(_) => None,
    }
}

// The function type that this is.
fn function_of(shape: &Shape) -> Option<&FnTy>
    ensures { MatchOption result (function_in (shape_form shape.now) ≡ no_signature) (λ f. function_in (shape_form shape.now) ≡ signature_of f.now) }
{
    match shape {
        Shape::Func(function) => Some(function),
        Shape::Void | Shape::Int(_) | Shape::Enum { .. } | Shape::Null => None,
        Shape::Ref(_) | Shape::Array(..) | Shape::Ptr(_) | Shape::TxEx(_) => None,
        Shape::Class(_) | Shape::Closure(_) => None,
    }
}

/// The spelling, safety aside, of the type of the function that a tree's pointer points to.
pub fn called_text(alloc: Global, bound: &Bound<'_>, pointer: TreeAt) -> Result<Vec<u8>, AllocError>
    ensures { IfOk result (λ v. v.items ≡ function_spelling (classes_of (given bound.now).program.classes.items) (without_safety (called_signature (typ_in (tree_of bound.now pointer)))) []) }
{
    let found = match type_of(bound, pointer) {
        Some(ty) => called(ty),
        None => None,
    };
    match found {
        Some(function) => type_text(alloc, function, &bound.program().classes),
        None => Vec::from_slice(alloc, b"void()"),
    }
}

// A type's spelling without its own qualifiers.
fn plain_text(alloc: Global, ty: &Ty, classes: &[ClassRec]) -> Result<Vec<u8>, AllocError>
    ensures { IfOk result (λ v. v.items ≡ form_spelling (classes_of classes.now) (shape_form ty.now.shape) false false) }
{
    let copied = copy(alloc, ty)?;
    let plain = Ty {
        shape: copied.shape,
        is_const: false,
        is_volatile: false,
    };
    spell(alloc, &plain, classes)
}

// The spelling of a class.
fn class_text(alloc: Global, class: u32, classes: &[ClassRec]) -> Result<Vec<u8>, AllocError>
    ensures { IfOk result (λ v. v.items ≡ form_spelling (classes_of classes.now) (of_class class) false false) }
{
    let plain = Ty {
        shape: Shape::Class(class),
        is_const: false,
        is_volatile: false,
    };
    spell(alloc, &plain, classes)
}

// The base of a complete class.
fn base_of(classes: &[ClassRec], class: u32) -> Option<u32>
    ensures { result ≡ base_found (classes_of classes.now) class }
{
    let record = classes.get(class as usize)?;
    match record.complete {
        Some(_) => record.base,
        None => None,
    }
}

// How many classes were completed before this one; 0 where it is not complete.
fn completion(classes: &[ClassRec], class: u32) -> u32
    ensures { result ≡ unwrap_or (completion_of (classes_of classes.now) class) 0 }
{
    match classes.get(class as usize) {
        Some(record) => match record.complete {
            Some(number) => number,
            None => 0,
        },
        None => 0,
    }
}

// Whether one of the bases of a class, of which there are at most `most`, has this spelling.
fn has_base(
    alloc: Global,
    classes: &[ClassRec],
    class: u32,
    most: u32,
    text: &[u8],
) -> Result<bool, AllocError>
    ensures { IfOk result (λ b. b ≡ list_any (is_spelled (classes_of classes.now) text.now) (chain most (classes_of classes.now) class)) }
{
    let mut below = class;
    for _passed in 0..most {
        let Some(base) = base_of(classes, below) else {
            return Ok(false);
        };
        let spelled = class_text(alloc, base, classes)?;
        if is_name(text, &spelled) {
            return Ok(true);
        }
        below = base;
    }
    Ok(false)
}

// The class that a shape is.
fn class_of(shape: &Shape) -> Option<u32>
    ensures { result ≡ class_in (shape_form shape.now) }
{
    match shape {
        Shape::Class(class) => Some(*class),
        Shape::Void | Shape::Int(_) | Shape::Enum { .. } | Shape::Null => None,
        Shape::Ptr(_) | Shape::Ref(_) | Shape::Array(..) | Shape::Func(_) => None,
        Shape::Closure(_) | Shape::TxEx(_) => None,
    }
}

// Whether a handler of this type catches an exception of that type: it is that type, or a base of it.
fn catches_type(
    alloc: Global,
    classes: &[ClassRec],
    ty: &Ty,
    thrown: &Ty,
) -> Result<bool, AllocError>
    ensures { IfOk result (λ b. b ≡ catches_form (classes_of classes.now) (shape_form ty.now.shape) (shape_form thrown.now.shape)) }
{
    let text = plain_text(alloc, ty, classes)?;
    let own = plain_text(alloc, thrown, classes)?;
    let words = text.as_slice();
    let others = own.as_slice();
    if is_name(words, others) {
        return Ok(true);
    }
    let Some(class) = class_of(&thrown.shape) else {
        return Ok(false);
    };
    let most = completion(classes, class);
    let found = has_base(alloc, classes, class, most, words)?;
    Ok(found)
}

/// Whether a handler catches what was thrown (C++14 15.3).
pub fn catches(
    alloc: Global,
    bound: &Bound<'_>,
    handler: TreeAt,
    thrown: TreeAt,
) -> Result<bool, AllocError>
    ensures { IfOk result (λ b. b ≡ catches_typ (classes_of (given bound.now).program.classes.items) (typ_in (tree_of bound.now handler)) (thrown_typ (typ_in (tree_of bound.now thrown)))) }
{
    match type_of(bound, handler) {
        Some(ty) => caught_by(alloc, bound, ty, thrown),
        None => Ok(true),
    }
}

// Whether a handler of this declared type catches what was thrown.
fn caught_by(alloc: Global, bound: &Bound<'_>, ty: &Ty, thrown: TreeAt) -> Result<bool, AllocError>
    ensures { IfOk result (λ b. b ≡ catches_typ (classes_of (given bound.now).program.classes.items) (typ_of ty.now) (thrown_typ (typ_in (tree_of bound.now thrown)))) }
{
    match &ty.shape {
        Shape::Void => Ok(true),
        Shape::Ref(inner) => caught(alloc, bound, inner, thrown),
        Shape::Int(_) | Shape::Enum { .. } | Shape::Null => caught(alloc, bound, ty, thrown),
        Shape::Ptr(_) | Shape::Array(..) | Shape::Func(_) => caught(alloc, bound, ty, thrown),
        Shape::Class(_) | Shape::Closure(_) | Shape::TxEx(_) => caught(alloc, bound, ty, thrown),
    }
}

// Whether a handler of this type catches what was thrown; the type of a word is `void`.
fn caught(alloc: Global, bound: &Bound<'_>, ty: &Ty, thrown: TreeAt) -> Result<bool, AllocError>
    ensures { IfOk result (λ b. b ≡ catches_form (classes_of (given bound.now).program.classes.items) (shape_form ty.now.shape) (form_in (typ_in (tree_of bound.now thrown)))) }
{
    let classes = bound.program().classes.as_slice();
    match type_of(bound, thrown) {
        Some(thrown) => catches_type(alloc, classes, ty, thrown),
        None => {
            let none = Ty {
                shape: Shape::Void,
                is_const: false,
                is_volatile: false,
            };
            catches_type(alloc, classes, ty, &none)
        }
    }
}

//! Types of exceptions by their spellings.

ghost use Rattle.std.specs.Prelude.{◌≡◌, true, IfOk};
ghost use Rattle.cpp_tree.specs.cpp_types.Typ.{typ_of, shape_form};
ghost use Rattle.cpp_tree.specs.cpp_types.Equal.{flag_eq};
ghost use Rattle.src_mean.specs.Exceptions.{cancels_form};
ghost use Rattle.symbolic_terms.specs.declared.terms.Exception.{Exception};
ghost use Rattle.symbolic_terms.specs.Meanings.{Meaning, thrown_of, Agrees};
ghost use Rattle.src_bind.specs.Tables.{typed};
ghost use Rattle.body_check.specs.Notes.{IsThrown};
ghost use Rattle.image_links.specs.Books.{cancels_alike};
ghost use Rattle.note_landing.specs.Shown.{types_by, numbers_by, thrown_by, exception_by, image_by, linked_by, given_by};
ghost use Rattle.std.specs.Prelude.{ℕ, Some, slice_get};

use crate::class_names::{both, is_told_apart, plain_text};
use crate::compiled::Compiled;
use cpp_tree::below::{Shape, Ty};
use image_links::lookups::cancels;
use image_links::tables::spelling_place;
use std::alloc::{AllocError, Global};
use symbolic_terms::ids::ExceptionId;
use symbolic_terms::refusal::Refusal;
use symbolic_terms::terms::Exception;
use symbolic_terms::words::{Words, exception as exception_at};

/// The number of a type in the image.
pub fn number_of<'a>(alloc: Global, body: &Compiled<'a>, ty: &Ty) -> Result<usize, AllocError>
    ensures { IfOk result (λ n. n ≡ numbers_by body.now (typ_of ty.now)) }
{
    let classes = body.source.bound.program().classes.as_slice();
    let text = plain_text(alloc, ty, classes)?;
    Ok(spelling_place(&text, &body.image.types))
}

// Whether the shape is that of `std::tx_exception`.
fn is_cancelling(shape: &Shape) -> bool
    ensures { result ≡ cancels_form (shape_form shape.now) }
{
    match shape {
        Shape::TxEx(_) => true,
        Shape::Void | Shape::Int(_) | Shape::Enum { .. } | Shape::Null => false,
        Shape::Ptr(_) | Shape::Ref(_) | Shape::Array(..) | Shape::Func(_) => false,
        Shape::Class(_) | Shape::Closure(_) => false,
    }
}

// Whether both are true, or none.
fn is_same(left: bool, right: bool) -> bool
    ensures { result ≡ flag_eq left right }
{
    if left { right } else { !right }
}

// Whether image and program say alike whether a type supports cancellation.
fn cancels_alike<'a>(alloc: Global, body: &Compiled<'a>, ty: &Ty) -> Result<bool, AllocError>
    ensures { IfOk result (λ b. b ≡ cancels_alike (image_by body.now) (linked_by body.now) (typed (given_by body.now)) (typ_of ty.now)) }
{
    let number = number_of(alloc, body, ty)?;
    Ok(is_same(cancels(body.image, number), is_cancelling(&ty.shape)))
}

// Whether exceptions of a type are thrown.
fn is_thrown_type<'a>(alloc: Global, body: &Compiled<'a>, ty: &Ty) -> Result<bool, AllocError>
    ensures { IfOk result (λ b. b ≡ thrown_by body.now (typ_of ty.now)) }
{
    let alike = cancels_alike(alloc, body, ty)?;
    let classes = body.source.bound.program().classes.as_slice();
    let apart = is_told_apart(alloc, classes, ty)?;
    Ok(both(alike, apart))
}

// Whether an exception is of a type that is thrown, where its type is known.
fn is_of_thrown<'a>(
    alloc: Global,
    body: &Compiled<'a>,
    exception: &Exception<'a>,
) -> Result<bool, AllocError>
    ensures { IfOk result (λ b. b ≡ true → IsThrown (thrown_by body.now) (exception_by body.now exception.now)) }
{
    match exception {
        Exception::Unknown(_) => Ok(true),
        Exception::Made(typ, _) => match body.source.types.get(*typ as usize) {
            Some(ty) => {
                let alike = is_thrown_type(alloc, body, ty)?;
                Ok(alike)
            }
            None => Ok(false),
        },
    }
}

/// Whether an exception is of a type that is thrown, where its type is known.
pub fn is_thrown<'a>(
    alloc: Global,
    words: &Words<'a>,
    body: &Compiled<'a>,
    exception: ExceptionId,
) -> Result<bool, Refusal>
    ensures { IfOk result (λ b. b ≡ true → (m : Meaning) → Agrees (types_by body.now) m words.now → IsThrown (thrown_by body.now) (thrown_of m exception)) }
{
    let made = exception_at(words, exception)?;
    let thrown = is_of_thrown(alloc, body, &made)?;
    Ok(thrown)
}

/// Whether each of these exceptions is of a type that is thrown.
pub fn all_thrown<'a>(
    alloc: Global,
    body: &Compiled<'a>,
    exceptions: &[Exception<'a>],
) -> Result<bool, AllocError>
    ensures { IfOk result (λ b. b ≡ true → (n : ℕ) (e : Exception) → slice_get exceptions.now n ≡ Some e → IsThrown (thrown_by body.now) (exception_by body.now e)) }
{
    for exception in exceptions {
        if !is_of_thrown(alloc, body, exception)? {
            return Ok(false);
        }
    }
    Ok(true)
}

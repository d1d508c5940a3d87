//! Answers on whether handlers catch an unknown exception.

ghost use Rattle.std.specs.Prelude.{◌≡◌, false, true, IfOk, MatchOption, None, Some};
ghost use Rattle.std.specs.List.{list_any};
ghost use Rattle.cpp_tree.specs.cpp_types.Class.{classes_of};
ghost use Rattle.cpp_tree.specs.cpp_types.Equal.{name_eq};
ghost use Rattle.cpp_tree.specs.cpp_types.Typ.{typ_of};
ghost use Rattle.cpp_tree.specs.Trees.{typ_in};
ghost use Rattle.src_mean.specs.Exceptions.{catches as catches_typ};
ghost use Rattle.src_frames.specs.Bounds.{tree_of};
ghost use Rattle.body_check.specs.Cases.{answer_in, handler_spelling};
ghost use Rattle.symbolic_source.specs.Steps.{caught as caught_so};
ghost use Rattle.symbolic_terms.specs.Meanings.{Meaning, thrown_of, Agrees};
ghost use Rattle.symbolic_leaving.specs.Source.{types_at, linked_to, func_of};
ghost use Rattle.symbolic_leaving.specs.Answers.{case_of, texts_of, answers_at};

use crate::source::Source;
use crate::texts::{catches, plain_text};
use cpp_tree::below::{ClassRec, Shape, Ty, is_name};
use src_frames::trees::{TreeAt, type_of};
use std::alloc::{AllocError, Global};
use symbolic_terms::ids::ExceptionId;
use symbolic_terms::refusal::Refusal;
use symbolic_terms::terms::Exception;
use symbolic_terms::words::{Words, exception as exception_at};

/// What the types of an exception have in common: a class by its number, the spelling of any other type, or no known one.
#[derive(Drop)]
pub enum Case {
    Class(u32),
    Spelling(Vec<u8>),
    Others,
}

/// There are no answers, or one unknown exception is of a type in this case, where these spellings are known.
#[derive(Clone, Copy)]
pub enum CaseAnswers<'k> {
    Unanswered,
    InCase {
        exception: u32,
        case: &'k Case,
        known: &'k [Vec<u8>],
    },
}

/// Whether a handler catches an exception, where that is known.
pub fn caught(
    alloc: Global,
    words: &Words<'_>,
    source: &Source<'_>,
    answers: CaseAnswers<'_>,
    exception: ExceptionId,
    handler: TreeAt,
) -> Result<Option<bool>, Refusal>
    ensures { IfOk result (λ o. (m : Meaning) → Agrees (types_at source.now) m words.now → o ≡ caught_so (linked_to source.now) (func_of source.now) (answers_at source.now answers.entry) (thrown_of m exception) (tree_of source.now.bound.now handler)) }
{
    match exception_at(words, exception)? {
        Exception::Unknown(number) => Ok(answered(alloc, source, answers, number, handler)?),
        Exception::Made(number, _) => Ok(Some(catches_number(alloc, source, handler, number)?)),
    }
}

// Whether a handler catches an exception of the type with this number; past the types that were told it is `void`.
fn catches_number(
    alloc: Global,
    source: &Source<'_>,
    handler: TreeAt,
    number: u32,
) -> Result<bool, AllocError>
    ensures { IfOk result (λ b. b ≡ catches_typ (linked_to source.now).classes (typ_in (tree_of source.now.bound.now handler)) (types_at source.now number)) }
{
    match source.types.get(number as usize) {
        Some(ty) => catches(alloc, source, handler, ty),
        None => {
            let void = Ty {
                shape: Shape::Void,
                is_const: false,
                is_volatile: false,
            };
            catches(alloc, source, handler, &void)
        }
    }
}

// Whether a handler catches the unknown exception with this number.
fn answered(
    alloc: Global,
    source: &Source<'_>,
    answers: CaseAnswers<'_>,
    exception: u32,
    handler: TreeAt,
) -> Result<Option<bool>, AllocError>
    ensures { IfOk result (λ o. o ≡ answers_at source.now answers.entry exception (tree_of source.now.bound.now handler)) }
{
    match answers {
        CaseAnswers::Unanswered => Ok(None),
        CaseAnswers::InCase {
            exception: number,
            case,
            known,
        } => {
            if exception == number {
                answer(alloc, source, case, known, handler)
            } else {
                Ok(None)
            }
        }
    }
}

// Whether a handler catches the types of a case.
fn answer(
    alloc: Global,
    source: &Source<'_>,
    case: &Case,
    known: &[Vec<u8>],
    handler: TreeAt,
) -> Result<Option<bool>, AllocError>
    ensures { IfOk result (λ o. o ≡ answer_in (linked_to source.now).classes (texts_of known.now) (case_of case.now) (handler_spelling (linked_to source.now).classes (texts_of known.now) (typ_in (tree_of source.now.bound.now handler)))) }
{
    match case {
        Case::Class(class) => {
            let thrown = Ty {
                shape: Shape::Class(*class),
                is_const: false,
                is_volatile: false,
            };
            Ok(Some(catches(alloc, source, handler, &thrown)?))
        }
        Case::Spelling(text) => match spelled(alloc, source, known, handler)? {
            Some(own) => Ok(Some(is_name(&own, text))),
            None => Ok(Some(true)),
        },
        Case::Others => match spelled(alloc, source, known, handler)? {
            Some(own) => {
                if is_known(known, &own) {
                    Ok(Some(false))
                } else {
                    Ok(None)
                }
            }
            None => Ok(Some(true)),
        },
    }
}

// Whether a text is one of these.
fn is_known(known: &[Vec<u8>], text: &[u8]) -> bool
    ensures { result ≡ list_any (name_eq text.now) (texts_of known.now) }
{
    for one in known {
        if is_name(text, one) {
            return true;
        }
    }
    false
}

// What a handler's type is spelled as; nothing by `...`.
fn spelled(
    alloc: Global,
    source: &Source<'_>,
    known: &[Vec<u8>],
    handler: TreeAt,
) -> Result<Option<Vec<u8>>, AllocError>
    ensures { IfOk result (λ o. MatchOption o (handler_spelling (linked_to source.now).classes (texts_of known.now) (typ_in (tree_of source.now.bound.now handler)) ≡ None) (λ s. handler_spelling (linked_to source.now).classes (texts_of known.now) (typ_in (tree_of source.now.bound.now handler)) ≡ Some s.items)) }
{
    let classes = source.bound.program().classes.as_slice();
    match type_of(source.bound, handler) {
        Some(ty) => spelled_type(alloc, classes, known, ty),
        None => Ok(None),
    }
}

// What a handler of this declared type is spelled as; nothing by `...`.
fn spelled_type(
    alloc: Global,
    classes: &[ClassRec],
    known: &[Vec<u8>],
    ty: &Ty,
) -> Result<Option<Vec<u8>>, AllocError>
    ensures { IfOk result (λ o. MatchOption o (handler_spelling (classes_of classes.now) (texts_of known.now) (typ_of ty.now) ≡ None) (λ s. handler_spelling (classes_of classes.now) (texts_of known.now) (typ_of ty.now) ≡ Some s.items)) }
{
    let _shown = known;
    match &ty.shape {
        Shape::Void => Ok(None),
        Shape::Ref(inner) => Ok(Some(plain_text(alloc, inner, classes)?)),
        Shape::Int(_) | Shape::Enum { .. } | Shape::Null => {
            Ok(Some(plain_text(alloc, ty, classes)?))
        }
        Shape::Ptr(_) | Shape::Array(..) | Shape::Func(_) => {
            Ok(Some(plain_text(alloc, ty, classes)?))
        }
        Shape::Class(_) | Shape::Closure(_) | Shape::TxEx(_) => {
            Ok(Some(plain_text(alloc, ty, classes)?))
        }
    }
}

//! What calls and throws do first.

ghost use Rattle.std.specs.Prelude.{ℕ, ◌≡◌, ◌∷◌, [], IfOk};
ghost use Rattle.cpp_tree.specs.cpp_types.Typ.{Typ};
ghost use Rattle.cpp_tree.specs.Trees.{typ_in, first as first_kid, rest as kids_after};
ghost use Rattle.src_mean.specs.Exceptions.{thrown_typ};
ghost use Rattle.src_frames.specs.Bounds.{all_kids};
ghost use Rattle.symbolic_source.specs.Frames.{value as for_value, known, handled as handled_in, Run as Runs, Object as ObjectsOf, builtin, Throws as ThrowsSo};
ghost use Rattle.symbolic_source.specs.Outcomes.{silent, goes as goes_on};
ghost use Rattle.symbolic_source.specs.Steps.{result_words as words_of_result, called as calls_so, next_word as goes_to_word, rethrown};
ghost use Rattle.symbolic_terms.specs.Meanings.{Meaning, Agrees};
ghost use Rattle.symbolic_terms.specs.Shown.{way_of};
ghost use Rattle.symbolic_leaving.specs.Source.{types_at, linked_to, func_of};
ghost use Rattle.symbolic_leaving.specs.Answers.{answers_at};
ghost use Rattle.symbolic_leaving.specs.Shown.{left_in, waits_in};
ghost use Rattle.symbolic_running.specs.Next.{next_of};

use crate::next::{Going, Next, When, leaving, running_before};
use crate::operations::run_first;
use crate::words::{called, next_word, result_words};
use bumpalo::Bump;
use cpp_tree::Builtin;
use src_frames::trees::{KidsAt, first, rest as rest_of};
use std::alloc::Global;
use symbolic_frames::stacks::handled;
use symbolic_leaving::answers::CaseAnswers;
use symbolic_leaving::source::{Source, number_of};
use symbolic_leaving::states::rethrows;
use symbolic_leaving::texts::thrown_type;
use symbolic_terms::frames::{CallFrame, Callee, ExceptionFrame, Exit, Frame, Way};
use symbolic_terms::ids::Terms;
use symbolic_terms::outcomes::Rest;
use symbolic_terms::words::Words;

/// A call of a function of the unit.
pub(crate) fn run_call<'a>(
    arena: &'a Bump,
    words: &mut Words<'a>,
    source: &Source<'a>,
    answers: CaseAnswers<'_>,
    rest: Rest<'a>,
    way: Way,
    func: u32,
    kids: KidsAt,
) -> Going<'a>
    ensures is { IfOk result (λ o. (m : Meaning) → Agrees (types_at source.now) m words.new → next_of source.now m answers.entry rest.entry o ≡ calls_so (waits_in source.now m rest.entry) (known ((linked_to source.now).number (func_of source.now).unit func)) (words_of_result (way_of (types_at source.now) m way)) (all_kids source.now.bound.now kids) (left_in source.now m rest.entry)) }
    ensures grows { (types : ℕ → Typ) (m : Meaning) → Agrees types m words.new → Agrees types m words.old }
{
    let _shown = answers;
    let before = result_words(arena, source, way)?;
    let callee = Callee::Known(number_of(source, func));
    Ok(Next::Made(
        When::Always,
        called(arena, words, source, rest, callee, before, kids)?,
    ))
}

/// A call of a virtual function.
pub(crate) fn run_virtual<'a>(
    arena: &'a Bump,
    source: &Source<'a>,
    answers: CaseAnswers<'_>,
    rest: Rest<'a>,
    way: Way,
    class: u32,
    slot: u32,
    pointer: u32,
    kids: KidsAt,
) -> Going<'a>
    ensures { IfOk result (λ o. (m : Meaning) → next_of source.now m answers.entry rest.entry o ≡ goes_on silent (waits_in source.now m rest.entry) (Runs for_value (first_kid (all_kids source.now.bound.now kids)) ∷ ObjectsOf (words_of_result (way_of (types_at source.now) m way)) class slot pointer (kids_after (all_kids source.now.bound.now kids)) ∷ left_in source.now m rest.entry)) }
{
    let then = CallFrame::Object {
        before: result_words(arena, source, way)?,
        class,
        slot,
        pointer,
        rest: rest_of(source.bound, kids),
    };
    run_first(arena, source, answers, rest, kids, Frame::Call(then))
}

/// A call of a function that needs no declaration.
pub(crate) fn run_builtin<'a>(
    arena: &'a Bump,
    words: &mut Words<'a>,
    source: &Source<'a>,
    answers: CaseAnswers<'_>,
    rest: Rest<'a>,
    which: Builtin,
    kids: KidsAt,
) -> Going<'a>
    ensures is { IfOk result (λ o. (m : Meaning) → Agrees (types_at source.now) m words.new → next_of source.now m answers.entry rest.entry o ≡ goes_to_word (waits_in source.now m rest.entry) (builtin which) [] (all_kids source.now.bound.now kids) (left_in source.now m rest.entry)) }
    ensures grows { (types : ℕ → Typ) (m : Meaning) → Agrees types m words.new → Agrees types m words.old }
{
    let _shown = answers;
    let callee = Callee::Builtin(which);
    Ok(Next::Made(
        When::Always,
        next_word(arena, words, source, rest, callee, Terms::Empty, kids)?,
    ))
}

/// An exception is thrown.
pub(crate) fn run_throw<'a>(
    alloc: Global,
    arena: &'a Bump,
    source: &Source<'a>,
    answers: CaseAnswers<'_>,
    rest: Rest<'a>,
    kids: KidsAt,
) -> Going<'a>
    ensures { IfOk result (λ o. (m : Meaning) → next_of source.now m answers.entry rest.entry o ≡ goes_on silent (waits_in source.now m rest.entry) (Runs for_value (first_kid (all_kids source.now.bound.now kids)) ∷ ThrowsSo (thrown_typ (typ_in (first_kid (all_kids source.now.bound.now kids)))) (kids_after (all_kids source.now.bound.now kids)) ∷ left_in source.now m rest.entry)) }
{
    let thrown = first(source.bound, kids);
    let then = ExceptionFrame::Throws {
        typ: thrown_type(alloc, source, thrown)?,
        fields: rest_of(source.bound, kids),
    };
    running_before(arena, source, answers, rest, thrown, Frame::Exception(then))
}

/// The exception at hand goes outward once more.
pub(crate) fn rethrow<'a>(
    arena: &'a Bump,
    words: &mut Words<'a>,
    source: &Source<'a>,
    answers: CaseAnswers<'_>,
    rest: Rest<'a>,
) -> Going<'a>
    ensures is { IfOk result (λ o. (m : Meaning) → Agrees (types_at source.now) m words.new → next_of source.now m answers.entry rest.entry o ≡ rethrown (linked_to source.now) (func_of source.now) (answers_at source.now answers.entry) (waits_in source.now m rest.entry) (handled_in (left_in source.now m rest.entry)) (left_in source.now m rest.entry)) }
    ensures grows { (types : ℕ → Typ) (m : Meaning) → Agrees types m words.new → Agrees types m words.old }
{
    match handled(rest.frames) {
        Some(exception) => leaving(arena, words, source, answers, rest, Exit::Throws(exception)),
        None => Ok(Next::Made(When::Always, rethrows(source, rest))),
    }
}

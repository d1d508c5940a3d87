//! What operators, stores and conditionals do first.

ghost use Rattle.std.specs.Prelude.{ℕ, ◌≡◌, ◌∷◌, IfOk};
ghost use Rattle.cpp_tree.specs.cpp_types.Typ.{Typ};
ghost use Rattle.cpp_tree.specs.Trees.{typ_in, first as first_kid, rest as kids_after, second as second_kid, third as third_kid};
ghost use Rattle.src_mean.specs.Source.{called_signature};
ghost use Rattle.src_frames.specs.Bounds.{all_kids};
ghost use Rattle.src_frames.specs.Shown.{open_shown};
ghost use Rattle.symbolic_source.specs.Terms.{number as number_of_term};
ghost use Rattle.symbolic_source.specs.Frames.{value as for_value, Run as Runs, Opens as OpensSo, StoreTo as StoresTo, From as FromSo, Choose as ChoosesSo, CopyTo as CopiesTo, Pointer as PointsTo};
ghost use Rattle.symbolic_source.specs.Outcomes.{silent, goes as goes_on};
ghost use Rattle.symbolic_source.specs.Steps.{target_of, result_words as words_of_result};
ghost use Rattle.symbolic_terms.specs.Meanings.{Meaning, Agrees};
ghost use Rattle.symbolic_terms.specs.Shown.{way_of, value_of, doing_of};
ghost use Rattle.symbolic_leaving.specs.Source.{types_at, units_of, func_of};
ghost use Rattle.symbolic_leaving.specs.Shown.{frame_at, left_in, waits_in};
ghost use Rattle.symbolic_running.specs.Next.{next_of};

use crate::next::{Going, coming, running_before};
use crate::words::{result_words, target_of_way};
use bumpalo::Bump;
use cpp_tree::below::IntKind;
use src_frames::frames::Open;
use src_frames::trees::{KidsAt, first, rest as rest_of, second, third};
use symbolic_leaving::answers::CaseAnswers;
use symbolic_leaving::source::Source;
use symbolic_leaving::states::number;
use symbolic_terms::frames::{BlockFrame, CallFrame, Frame, ValueFrame, Way};
use symbolic_terms::outcomes::{Doing, Rest};
use symbolic_terms::refusal::Refusal;
use symbolic_terms::words::Words;

/// Stores a scalar into the object that is built, and gives 0 then.
pub(crate) fn stores<'a>(
    words: &mut Words<'a>,
    source: &Source<'a>,
    way: Way,
    kind: IntKind,
    volatile: bool,
) -> Result<Frame<'a>, Refusal>
    ensures is { IfOk result (λ g. (m : Meaning) → Agrees (types_at source.now) m words.new → frame_at source.now m g ≡ StoresTo (target_of (way_of (types_at source.now) m way)) kind volatile (number_of_term 0)) }
    ensures grows { (types : ℕ → Typ) (m : Meaning) → Agrees types m words.new → Agrees types m words.old }
{
    let _shown = source;
    let address = target_of_way(words, way)?;
    let answer = number(words, 0)?;
    Ok(Frame::Value(ValueFrame::StoreTo {
        address,
        kind,
        volatile,
        answer,
    }))
}

/// A scalar is stored into the object that is built.
pub(crate) fn run_store<'a>(
    arena: &'a Bump,
    words: &mut Words<'a>,
    source: &Source<'a>,
    answers: CaseAnswers<'_>,
    rest: Rest<'a>,
    way: Way,
    kind: IntKind,
    volatile: bool,
    kids: KidsAt,
) -> Going<'a>
    ensures is { IfOk result (λ o. (m : Meaning) → Agrees (types_at source.now) m words.new → next_of source.now m answers.entry rest.entry o ≡ goes_on silent (waits_in source.now m rest.entry) (Runs for_value (first_kid (all_kids source.now.bound.now kids)) ∷ StoresTo (target_of (way_of (types_at source.now) m way)) kind volatile (number_of_term 0) ∷ left_in source.now m rest.entry)) }
    ensures grows { (types : ℕ → Typ) (m : Meaning) → Agrees types m words.new → Agrees types m words.old }
{
    let then = stores(words, source, way, kind, volatile)?;
    run_first(arena, source, answers, rest, kids, then)
}

/// An object is copied from another one.
pub(crate) fn run_from<'a>(
    arena: &'a Bump,
    words: &mut Words<'a>,
    source: &Source<'a>,
    answers: CaseAnswers<'_>,
    rest: Rest<'a>,
    way: Way,
    kids: KidsAt,
) -> Going<'a>
    ensures is { IfOk result (λ o. (m : Meaning) → Agrees (types_at source.now) m words.new → next_of source.now m answers.entry rest.entry o ≡ goes_on silent (waits_in source.now m rest.entry) (Runs for_value (first_kid (all_kids source.now.bound.now kids)) ∷ FromSo (target_of (way_of (types_at source.now) m way)) (second_kid (all_kids source.now.bound.now kids)) ∷ left_in source.now m rest.entry)) }
    ensures grows { (types : ℕ → Typ) (m : Meaning) → Agrees types m words.new → Agrees types m words.old }
{
    let then = ValueFrame::From {
        target: target_of_way(words, way)?,
        init: second(source.bound, kids),
    };
    run_operand(arena, source, answers, rest, kids, then)
}

/// The first kid is run for its value, and then this frame goes on.
pub(crate) fn run_first<'a>(
    arena: &'a Bump,
    source: &Source<'a>,
    answers: CaseAnswers<'_>,
    rest: Rest<'a>,
    kids: KidsAt,
    then: Frame<'a>,
) -> Going<'a>
    ensures { IfOk result (λ o. (m : Meaning) → next_of source.now m answers.entry rest.entry o ≡ goes_on silent (waits_in source.now m rest.entry) (Runs for_value (first_kid (all_kids source.now.bound.now kids)) ∷ frame_at source.now m then.entry ∷ left_in source.now m rest.entry)) }
{
    running_before(
        arena,
        source,
        answers,
        rest,
        first(source.bound, kids),
        then,
    )
}

/// The first kid is run for its value, and then this frame goes on.
pub(crate) fn run_operand<'a>(
    arena: &'a Bump,
    source: &Source<'a>,
    answers: CaseAnswers<'_>,
    rest: Rest<'a>,
    kids: KidsAt,
    then: ValueFrame,
) -> Going<'a>
    ensures { IfOk result (λ o. (m : Meaning) → next_of source.now m answers.entry rest.entry o ≡ goes_on silent (waits_in source.now m rest.entry) (Runs for_value (first_kid (all_kids source.now.bound.now kids)) ∷ value_of (types_at source.now) m (units_of source.now) then ∷ left_in source.now m rest.entry)) }
{
    run_first(arena, source, answers, rest, kids, Frame::Value(then))
}

/// A block of the TS begins.
pub(crate) fn open<'a>(
    arena: &'a Bump,
    source: &Source<'a>,
    answers: CaseAnswers<'_>,
    rest: Rest<'a>,
    doing: Doing,
    block: Open,
    kids: KidsAt,
) -> Going<'a>
    ensures { IfOk result (λ o. (m : Meaning) → next_of source.now m answers.entry rest.entry o ≡ goes_on (doing_of (types_at source.now) m (units_of source.now) (func_of source.now) doing) (waits_in source.now m rest.entry) (OpensSo (open_shown block) (first_kid (all_kids source.now.bound.now kids)) ∷ left_in source.now m rest.entry)) }
{
    let frame = BlockFrame::Opens(block, first(source.bound, kids));
    coming(arena, source, answers, rest, doing, Frame::Block(frame))
}

/// `? :`, `&&`, `||` and `if`.
pub(crate) fn run_conditional<'a>(
    arena: &'a Bump,
    source: &Source<'a>,
    answers: CaseAnswers<'_>,
    rest: Rest<'a>,
    way: Way,
    kids: KidsAt,
) -> Going<'a>
    ensures { IfOk result (λ o. (m : Meaning) → next_of source.now m answers.entry rest.entry o ≡ goes_on silent (waits_in source.now m rest.entry) (Runs for_value (first_kid (all_kids source.now.bound.now kids)) ∷ ChoosesSo (way_of (types_at source.now) m way) (second_kid (all_kids source.now.bound.now kids)) (third_kid (all_kids source.now.bound.now kids)) ∷ left_in source.now m rest.entry)) }
{
    let then = ValueFrame::Choose {
        way,
        chosen: second(source.bound, kids),
        other: third(source.bound, kids),
    };
    run_operand(arena, source, answers, rest, kids, then)
}

/// The implicit copy assignment of a class.
pub(crate) fn run_copy<'a>(
    arena: &'a Bump,
    source: &Source<'a>,
    answers: CaseAnswers<'_>,
    rest: Rest<'a>,
    kids: KidsAt,
) -> Going<'a>
    ensures { IfOk result (λ o. (m : Meaning) → next_of source.now m answers.entry rest.entry o ≡ goes_on silent (waits_in source.now m rest.entry) (Runs for_value (first_kid (all_kids source.now.bound.now kids)) ∷ CopiesTo (second_kid (all_kids source.now.bound.now kids)) (third_kid (all_kids source.now.bound.now kids)) ∷ left_in source.now m rest.entry)) }
{
    let then = ValueFrame::CopyTo {
        source: second(source.bound, kids),
        init: third(source.bound, kids),
    };
    run_operand(arena, source, answers, rest, kids, then)
}

/// A call through a pointer.
pub(crate) fn run_pointer<'a>(
    arena: &'a Bump,
    source: &Source<'a>,
    answers: CaseAnswers<'_>,
    rest: Rest<'a>,
    way: Way,
    kids: KidsAt,
) -> Going<'a>
    ensures { IfOk result (λ o. (m : Meaning) → next_of source.now m answers.entry rest.entry o ≡ goes_on silent (waits_in source.now m rest.entry) (Runs for_value (first_kid (all_kids source.now.bound.now kids)) ∷ PointsTo (words_of_result (way_of (types_at source.now) m way)) (called_signature (typ_in (first_kid (all_kids source.now.bound.now kids)))) (kids_after (all_kids source.now.bound.now kids)) ∷ left_in source.now m rest.entry)) }
{
    let before = result_words(arena, source, way)?;
    let pointer = first(source.bound, kids);
    let then = CallFrame::Pointer {
        before,
        pointer,
        rest: rest_of(source.bound, kids),
    };
    running_before(arena, source, answers, rest, pointer, Frame::Call(then))
}

//! What statements do first.

ghost use Rattle.std.specs.Prelude.{ℕ, ◌≡◌, ◌∷◌, [], not, IfOk};
ghost use Rattle.cpp_tree.specs.cpp_types.Typ.{Typ};
ghost use Rattle.cpp_tree.specs.Trees.{first as first_kid, rest as kids_after, second as second_kid, third as third_kid};
ghost use Rattle.src_mean.specs.Frames.{of_block};
ghost use Rattle.src_frames.specs.Bounds.{tree_of, all_kids};
ghost use Rattle.symbolic_source.specs.Frames.{value as for_value, at_tree, Run as Runs, Waits as WaitsIn, Scope as ScopeOf, InitAt as InitsAt, Items as ItemsOf};
ghost use Rattle.symbolic_source.specs.Outcomes.{silent, goes as goes_on};
ghost use Rattle.symbolic_source.specs.Steps.{first_part as starts_loop, return_value};
ghost use Rattle.symbolic_terms.specs.Meanings.{Meaning, Agrees};
ghost use Rattle.symbolic_leaving.specs.Source.{types_at, linked_to, func_of};
ghost use Rattle.symbolic_leaving.specs.Answers.{answers_at};
ghost use Rattle.symbolic_leaving.specs.Shown.{left_in, waits_in};
ghost use Rattle.symbolic_running.specs.Next.{next_of};

use crate::next::{Going, Next, When, going, leaving, running_before};
use crate::operations::run_first;
use bumpalo::Bump;
use src_frames::frames::{LoopParts, Owner};
use src_frames::trees::{KidsAt, first, head, rest as rest_of, second, third};
use symbolic_leaving::answers::CaseAnswers;
use symbolic_leaving::source::Source;
use symbolic_leaving::states::{goes, number, run_body, run_test, scoped};
use symbolic_terms::frames::{Exit, Frame, ObjectFrame, Spot, StatementFrame, Waiting};
use symbolic_terms::outcomes::Rest;
use symbolic_terms::words::Words;

// The parts of a loop.
fn loop_parts(source: &Source<'_>, kids: KidsAt) -> LoopParts
    ensures test { tree_of source.now.bound.now result.test ≡ first_kid (all_kids source.now.bound.now kids) }
    ensures body { tree_of source.now.bound.now result.body ≡ second_kid (all_kids source.now.bound.now kids) }
    ensures step { tree_of source.now.bound.now result.step ≡ third_kid (all_kids source.now.bound.now kids) }
{
    LoopParts {
        test: first(source.bound, kids),
        body: second(source.bound, kids),
        step: third(source.bound, kids),
    }
}

/// A compound statement.
pub(crate) fn run_block<'a>(
    arena: &'a Bump,
    source: &Source<'a>,
    answers: CaseAnswers<'_>,
    rest: Rest<'a>,
    subobjects: bool,
    kids: KidsAt,
) -> Going<'a>
    ensures { IfOk result (λ o. (m : Meaning) → next_of source.now m answers.entry rest.entry o ≡ goes_on silent (waits_in source.now m rest.entry) (ItemsOf (all_kids source.now.bound.now kids) ∷ ScopeOf of_block (not subobjects) [] ∷ left_in source.now m rest.entry)) }
{
    let _shown = answers;
    let with = scoped(arena, source, rest, Owner::Block, !subobjects)?;
    let items = Frame::Statement(StatementFrame::Items(kids));
    Ok(Next::Made(When::Always, goes(arena, source, with, items)?))
}

/// A loop.
pub(crate) fn run_loop<'a>(
    arena: &'a Bump,
    source: &Source<'a>,
    answers: CaseAnswers<'_>,
    rest: Rest<'a>,
    test_first: bool,
    kids: KidsAt,
) -> Going<'a>
    ensures { IfOk result (λ o. (m : Meaning) → next_of source.now m answers.entry rest.entry o ≡ starts_loop (linked_to source.now) (func_of source.now) (answers_at source.now answers.entry) (waits_in source.now m rest.entry) test_first (all_kids source.now.bound.now kids) (left_in source.now m rest.entry)) }
{
    let _shown = answers;
    let parts = loop_parts(source, kids);
    if test_first {
        Ok(Next::Made(When::Always, run_test(arena, source, rest, parts)?))
    } else {
        Ok(Next::Made(When::Always, run_body(arena, source, rest, parts)?))
    }
}

/// A variable, or a base or member in a constructor.
pub(crate) fn run_init<'a>(
    arena: &'a Bump,
    source: &Source<'a>,
    answers: CaseAnswers<'_>,
    rest: Rest<'a>,
    kids: KidsAt,
) -> Going<'a>
    ensures { IfOk result (λ o. (m : Meaning) → next_of source.now m answers.entry rest.entry o ≡ goes_on silent (waits_in source.now m rest.entry) (Runs for_value (first_kid (all_kids source.now.bound.now kids)) ∷ InitsAt (second_kid (all_kids source.now.bound.now kids)) (kids_after (kids_after (all_kids source.now.bound.now kids))) ∷ left_in source.now m rest.entry)) }
{
    let then = ObjectFrame::InitAt {
        init: second(source.bound, kids),
        destroys: rest_of(source.bound, rest_of(source.bound, kids)),
    };
    run_first(arena, source, answers, rest, kids, Frame::Object(then))
}

/// A base or member of an object that is being destroyed.
pub(crate) fn run_defer<'a>(
    arena: &'a Bump,
    source: &Source<'a>,
    answers: CaseAnswers<'_>,
    rest: Rest<'a>,
    kids: KidsAt,
) -> Going<'a>
    ensures { IfOk result (λ o. (m : Meaning) → next_of source.now m answers.entry rest.entry o ≡ goes_on silent (waits_in source.now m rest.entry) (WaitsIn of_block (at_tree (first_kid (all_kids source.now.bound.now kids))) (kids_after (all_kids source.now.bound.now kids)) ∷ left_in source.now m rest.entry)) }
{
    let waiting = Waiting {
        address: Spot::Tree(first(source.bound, kids)),
        destroys: rest_of(source.bound, kids),
    };
    let frame = ObjectFrame::Waits(Owner::Block, waiting);
    going(arena, source, answers, rest, Frame::Object(frame))
}

/// `return`.
#[tactic(auto, using(crate::proofs::Looks::return_more, crate::proofs::Looks::return_none))]
pub(crate) fn run_return<'a>(
    arena: &'a Bump,
    words: &mut Words<'a>,
    source: &Source<'a>,
    answers: CaseAnswers<'_>,
    rest: Rest<'a>,
    kids: KidsAt,
) -> Going<'a>
    ensures is { IfOk result (λ o. (m : Meaning) → Agrees (types_at source.now) m words.new → next_of source.now m answers.entry rest.entry o ≡ return_value (linked_to source.now) (func_of source.now) (answers_at source.now answers.entry) (waits_in source.now m rest.entry) (all_kids source.now.bound.now kids) (left_in source.now m rest.entry)) }
    ensures grows { (types : ℕ → Typ) (m : Meaning) → Agrees types m words.new → Agrees types m words.old }
{
    match head(source.bound, kids) {
        Some(value) => {
            let then = Frame::Statement(StatementFrame::Returning);
            running_before(arena, source, answers, rest, value, then)
        }
        None => {
            let zero = number(words, 0)?;
            leaving(arena, words, source, answers, rest, Exit::Returns(zero))
        }
    }
}

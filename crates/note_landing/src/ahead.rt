//! Silent steps of the source, as far as it may go.

ghost use Rattle.std.specs.Prelude.{ℕ, ◌≡◌, ◌+◌, IfOk, IfSome};
ghost use Rattle.cpp_tree.specs.cpp_types.Typ.{Typ};
ghost use Rattle.symbolic_source.specs.Steps.{advanced, step_of};
ghost use Rattle.symbolic_terms.specs.Meanings.{Meaning, Agrees};
ghost use Rattle.symbolic_leaving.specs.Source.{types_at, linked_to, func_of};
ghost use Rattle.symbolic_leaving.specs.Answers.{answers_at};
ghost use Rattle.symbolic_leaving.specs.Shown.{outcome_at};

use crate::compiled::Room;
use symbolic_steps::{CaseAnswers, Source, step};
use symbolic_terms::frames::{ExceptionFrame, Exit, Frame, Frames};
use symbolic_terms::outcomes::{Doing, Leading, Outcome};
use symbolic_terms::refusal::Refusal;
use symbolic_terms::words::Words;

/// How far the source goes: no handler is entered before the code enters it.
#[derive(Clone, Copy)]
pub enum Pace {
    /// It stops where handlers are tried.
    Plain,
    /// It goes on past handlers.
    Through,
    /// The code goes to a cleanup with so many entered handlers: it stops where handlers are tried and fewer are entered.
    Cleanup(u32),
    /// The code enters this handler, so that so many are entered: it stops where handlers are tried and as many are.
    Handler(u32),
}

/// How many steps are taken at most.
const MOST_STEPS: u32 = 400;

/// What the source has come to, after so many silent steps.
#[derive(Clone, Copy)]
pub struct Ahead<'a> {
    pub outcome: Outcome<'a>,
    pub steps: u32,
}

/// How many handlers of the function are entered.
pub fn entered<'a>(frames: Frames<'a>) -> u32 {
    match frames {
        Frames::Empty => 0,
        Frames::More(Frame::Exception(ExceptionFrame::Handling(_)), rest) => {
            entered(*rest).saturating_add(1)
        }
        Frames::More(_, rest) => entered(*rest),
    }
}

/// Whether handlers are tried for what goes outward, or may be.
pub fn tries<'a>(frames: Frames<'a>) -> bool {
    match frames {
        Frames::Empty => false,
        Frames::More(Frame::Exception(ExceptionFrame::Tries(_)), _) => true,
        Frames::More(Frame::Exception(ExceptionFrame::Trying { .. }), _) => true,
        Frames::More(_, rest) => tries(*rest),
    }
}

// Whether the source may go on where handlers are tried.
fn may_try<'a>(pace: Pace, frames: Frames<'a>) -> bool {
    match pace {
        Pace::Plain => false,
        Pace::Through => true,
        Pace::Cleanup(count) => count <= entered(frames),
        Pace::Handler(count) => entered(frames) < count,
    }
}

// Whether handlers are tried next.
fn is_trying<'a>(frames: Frames<'a>) -> bool {
    match frames {
        Frames::More(Frame::Exception(ExceptionFrame::Trying { .. }), _) => true,
        _ => false,
    }
}

// Whether the source may take a step.
fn may_step<'a>(pace: Pace, outcome: Outcome<'a>) -> bool {
    match outcome {
        Outcome::Goes(Leading::Does(Doing::Silent), rest) => !is_trying(rest.frames)
            || may_try(pace, rest.frames),
        _ => false,
    }
}

// Whether the source is better not there: nothing is foreseen, or an exception has left the function.
fn is_beyond<'a>(outcome: Outcome<'a>) -> bool {
    match outcome {
        Outcome::Stuck => true,
        Outcome::GoesOut(Exit::Throws(_), _) => true,
        _ => false,
    }
}

// A step, if one may be taken.
fn next_step<'a>(
    room: Room<'a>,
    words: &mut Words<'a>,
    source: &Source<'a>,
    answers: CaseAnswers<'_>,
    pace: Pace,
    outcome: Outcome<'a>,
) -> Result<Option<Outcome<'a>>, Refusal>
    ensures is { IfOk result (λ o. IfSome o (λ next. (m : Meaning) → Agrees (types_at source.now) m words.new → outcome_at source.now m next ≡ step_of (linked_to source.now) (func_of source.now) (answers_at source.now answers.entry) (outcome_at source.now m outcome.entry))) }
    ensures grows { IfOk result (λ z. (types : ℕ → Typ) (m : Meaning) → Agrees types m words.new → Agrees types m words.old) }
{
    if !may_step(pace, outcome) {
        return Ok(None);
    }
    let next = step(room.alloc, room.arena, words, source, answers, outcome)?;
    if is_beyond(next) {
        Ok(None)
    } else {
        Ok(Some(next))
    }
}

// The source takes so many silent steps at most.
#[tactic(auto, using(crate::proofs::Landed::further))]
fn advance_within<'a>(
    room: Room<'a>,
    words: &mut Words<'a>,
    source: &Source<'a>,
    answers: CaseAnswers<'_>,
    pace: Pace,
    most: u32,
    outcome: Outcome<'a>,
) -> Result<Ahead<'a>, Refusal>
    ensures is { IfOk result (λ a. (m : Meaning) → Agrees (types_at source.now) m words.new → outcome_at source.now m a.outcome ≡ advanced (linked_to source.now) (func_of source.now) (answers_at source.now answers.entry) a.steps (outcome_at source.now m outcome.entry)) }
    ensures grows { IfOk result (λ z. (types : ℕ → Typ) (m : Meaning) → Agrees types m words.new → Agrees types m words.old) }
{
    if most == 0 {
        return Ok(Ahead { outcome, steps: 0 });
    }
    match next_step(room, words, source, answers, pace, outcome)? {
        None => Ok(Ahead { outcome, steps: 0 }),
        Some(next) => {
            let ahead = advance_within(room, words, source, answers, pace, most - 1, next)?;
            Ok(Ahead {
                outcome: ahead.outcome,
                steps: one_more(ahead.steps)?,
            })
        }
    }
}

/// One more.
pub(crate) fn one_more(steps: u32) -> Result<u32, Refusal>
    ensures { IfOk result (λ n. n ≡ steps + 1) }
{
    match steps.checked_add(1) {
        Some(more) => Ok(more),
        None => Err(Refusal::Beyond),
    }
}

/// The source takes silent steps as far as it may.
pub fn advance<'a>(
    room: Room<'a>,
    words: &mut Words<'a>,
    source: &Source<'a>,
    answers: CaseAnswers<'_>,
    pace: Pace,
    outcome: Outcome<'a>,
) -> Result<Ahead<'a>, Refusal>
    ensures is { IfOk result (λ a. (m : Meaning) → Agrees (types_at source.now) m words.new → outcome_at source.now m a.outcome ≡ advanced (linked_to source.now) (func_of source.now) (answers_at source.now answers.entry) a.steps (outcome_at source.now m outcome.entry)) }
    ensures grows { IfOk result (λ z. (types : ℕ → Typ) (m : Meaning) → Agrees types m words.new → Agrees types m words.old) }
{
    advance_within(room, words, source, answers, pace, MOST_STEPS, outcome)
}

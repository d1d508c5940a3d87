//! How exceptions and jumps go outward (C++14 6.6, 15.2).

ghost use Rattle.std.specs.Prelude.{ℕ, ◌≡◌, ◌∷◌, IfOk};
ghost use Rattle.cpp_tree.specs.cpp_types.Typ.{Typ};
ghost use Rattle.src_frames.specs.Bounds.{tree_of, all_kids};
ghost use Rattle.src_frames.specs.Shown.{owner_shown};
ghost use Rattle.symbolic_source.specs.Frames.{Cleans as CleansAll, Scope as ScopeOf, Body as Bodies, Tries as TriesAll};
ghost use Rattle.symbolic_source.specs.Outcomes.{silent, goes as goes_on};
ghost use Rattle.symbolic_source.specs.Steps.{left as leaves};
ghost use Rattle.symbolic_terms.specs.Meanings.{Meaning, Agrees};
ghost use Rattle.symbolic_terms.specs.Shown.{exit_of, object_of, statement_of, block_of, throwing_of};
ghost use Rattle.symbolic_leaving.specs.Source.{types_at, units_of};
ghost use Rattle.symbolic_leaving.specs.Shown.{frame_at, frames_at, left_in, waits_in, waiting_at, outcome_at};
ghost use Rattle.symbolic_leaving.specs.Left.{past, throws_in, cleans_in};

use crate::source::Source;
use crate::states::{Made, comes, gives, goes, number, run_step, with_frame};
use bumpalo::Bump;
use src_frames::frames::{LoopParts, Owner};
use src_frames::trees::{KidsAt, head, rest as rest_of};
use symbolic_terms::frames::{
    BlockFrame, ExceptionFrame, Exit, Frame, Frames, ObjectFrame, StatementFrame, Waitings,
};
use symbolic_terms::outcomes::{Doing, Outcome, Rest};
use symbolic_terms::refusal::Refusal;
use symbolic_terms::words::Words;

// What comes of what goes outward at a frame; nothing where it goes on past it.
type Minding<'a> = Result<Option<Outcome<'a>>, Refusal>;

// Whether it is an exception.
fn is_throw(exit: Exit) -> bool
    ensures { result ≡ throws_in exit }
{
    match exit {
        Exit::Throws(_) => true,
        Exit::Returns(_) | Exit::Breaks | Exit::Continues => false,
    }
}

// Whether the objects of a scope are destroyed.
fn is_cleaned(always: bool, exit: Exit) -> bool
    ensures { result ≡ cleans_in always exit }
{
    if always { true } else { is_throw(exit) }
}

/// What goes outward comes to the next frame that minds it.
pub fn leave<'a>(
    arena: &'a Bump,
    words: &mut Words<'a>,
    source: &Source<'a>,
    temporaries: Waitings<'a>,
    exit: Exit,
    frames: Frames<'a>,
) -> Made<'a>
    ensures is { IfOk result (λ o. (m : Meaning) → Agrees (types_at source.now) m words.new → outcome_at source.now m o ≡ leaves (waiting_at source.now m temporaries.entry) (exit_of (types_at source.now) m exit) (frames_at source.now m frames.entry)) }
    ensures grows { (types : ℕ → Typ) (m : Meaning) → Agrees types m words.new → Agrees types m words.old }
{
    match frames {
        Frames::Empty => Ok(Outcome::GoesOut(exit, temporaries)),
        Frames::More(frame, others) => {
            let rest = Rest {
                temporaries,
                frames: *others,
            };
            match leave_at(arena, words, source, rest, exit, frame)? {
                Some(outcome) => Ok(outcome),
                None => leave(arena, words, source, temporaries, exit, *others),
            }
        }
    }
}

// What goes outward comes to this frame.
#[tactic(auto, using(crate::proofs::Skips::skip_value, crate::proofs::Skips::skip_call))]
fn leave_at<'a>(
    arena: &'a Bump,
    words: &mut Words<'a>,
    source: &Source<'a>,
    rest: Rest<'a>,
    exit: Exit,
    frame: Frame<'a>,
) -> Minding<'a>
    ensures is { IfOk result (λ b. (m : Meaning) → Agrees (types_at source.now) m words.new → past source.now m rest.entry exit b ≡ leaves (waits_in source.now m rest.entry) (exit_of (types_at source.now) m exit) (frame_at source.now m frame.entry ∷ left_in source.now m rest.entry)) }
    ensures grows { (types : ℕ → Typ) (m : Meaning) → Agrees types m words.new → Agrees types m words.old }
{
    match frame {
        Frame::Run(..) | Frame::Address(_) | Frame::Then(..) => Ok(None),
        Frame::Gives(_) | Frame::Leaves(_) => Ok(None),
        Frame::Value(_) | Frame::Call(_) => Ok(None),
        Frame::Object(frame) => leave_objects(arena, source, rest, exit, frame),
        Frame::Statement(frame) => leave_statement(arena, words, source, rest, exit, frame),
        Frame::Block(frame) => leave_block(arena, source, rest, exit, frame),
        Frame::Exception(frame) => leave_handlers(arena, source, rest, exit, frame),
    }
}

/// These objects are destroyed, and then this frame goes on.
pub fn clean<'a>(
    arena: &'a Bump,
    source: &Source<'a>,
    rest: Rest<'a>,
    waiting: Waitings<'a>,
    then: Frame<'a>,
) -> Made<'a>
    ensures { IfOk result (λ o. (m : Meaning) → outcome_at source.now m o ≡ goes_on silent (waits_in source.now m rest.entry) (CleansAll (waiting_at source.now m waiting.entry) ∷ frame_at source.now m then.entry ∷ left_in source.now m rest.entry)) }
{
    let rest = with_frame(arena, source, rest, then)?;
    goes(
        arena,
        source,
        rest,
        Frame::Object(ObjectFrame::Cleans(waiting)),
    )
}

/// A full-expression ends: its temporaries are destroyed, and then this frame goes on.
pub fn end_full<'a>(
    arena: &'a Bump,
    source: &Source<'a>,
    rest: Rest<'a>,
    outer: Waitings<'a>,
    then: Frame<'a>,
) -> Made<'a>
    ensures { IfOk result (λ o. (m : Meaning) → outcome_at source.now m o ≡ goes_on silent (waiting_at source.now m outer.entry) (CleansAll (waits_in source.now m rest.entry) ∷ frame_at source.now m then.entry ∷ left_in source.now m rest.entry)) }
{
    let around = Rest {
        temporaries: outer,
        frames: rest.frames,
    };
    clean(arena, source, around, rest.temporaries, then)
}

// Objects that wait are destroyed.
fn leave_objects<'a>(
    arena: &'a Bump,
    source: &Source<'a>,
    rest: Rest<'a>,
    exit: Exit,
    frame: ObjectFrame<'a>,
) -> Minding<'a>
    ensures { IfOk result (λ b. (m : Meaning) → past source.now m rest.entry exit b ≡ leaves (waits_in source.now m rest.entry) (exit_of (types_at source.now) m exit) (object_of (types_at source.now) m (units_of source.now) frame.entry ∷ left_in source.now m rest.entry)) }
{
    match frame {
        ObjectFrame::Scope {
            owner,
            always,
            waiting,
        } => leave_scope(arena, source, rest, exit, owner, always, waiting),
        ObjectFrame::Full { outer } => {
            Ok(Some(end_full(arena, source, rest, outer, Frame::Leaves(exit))?))
        }
        ObjectFrame::Keeps(_) | ObjectFrame::Waits(..) | ObjectFrame::InitAt { .. } => Ok(None),
        ObjectFrame::Cleans(_) | ObjectFrame::Due(_) | ObjectFrame::Destroys { .. } => Ok(None),
        ObjectFrame::Parts { .. } | ObjectFrame::Each { .. } => Ok(None),
    }
}

// A scope is left.
#[tactic(auto, using(crate::proofs::Scopes::scope_cleaned, crate::proofs::Scopes::scope_passed))]
fn leave_scope<'a>(
    arena: &'a Bump,
    source: &Source<'a>,
    rest: Rest<'a>,
    exit: Exit,
    owner: Owner,
    always: bool,
    waiting: Waitings<'a>,
) -> Minding<'a>
    ensures { IfOk result (λ b. (m : Meaning) → past source.now m rest.entry exit b ≡ leaves (waits_in source.now m rest.entry) (exit_of (types_at source.now) m exit) (ScopeOf (owner_shown owner) always (waiting_at source.now m waiting.entry) ∷ left_in source.now m rest.entry)) }
{
    let _shown = owner;
    if is_cleaned(always, exit) {
        Ok(Some(clean(arena, source, rest, waiting, Frame::Leaves(exit))?))
    } else {
        Ok(None)
    }
}

// A block of the TS is left.
fn leave_block<'a>(
    arena: &'a Bump,
    source: &Source<'a>,
    rest: Rest<'a>,
    exit: Exit,
    frame: BlockFrame,
) -> Minding<'a>
    ensures { IfOk result (λ b. (m : Meaning) → past source.now m rest.entry exit b ≡ leaves (waits_in source.now m rest.entry) (exit_of (types_at source.now) m exit) (block_of frame (units_of source.now) ∷ left_in source.now m rest.entry)) }
{
    match frame {
        BlockFrame::Within(block) => {
            let doing = Doing::LeavesBlock(block, exit);
            let rest = with_frame(arena, source, rest, Frame::Leaves(exit))?;
            let then = Frame::Block(BlockFrame::Closes(block));
            Ok(Some(comes(arena, source, rest, doing, then)?))
        }
        BlockFrame::Opens(..) | BlockFrame::Closes(_) => Ok(None),
    }
}

// An exception comes to handlers.
fn leave_handlers<'a>(
    arena: &'a Bump,
    source: &Source<'a>,
    rest: Rest<'a>,
    exit: Exit,
    frame: ExceptionFrame,
) -> Minding<'a>
    ensures { IfOk result (λ b. (m : Meaning) → past source.now m rest.entry exit b ≡ leaves (waits_in source.now m rest.entry) (exit_of (types_at source.now) m exit) (throwing_of (types_at source.now) m (units_of source.now) frame ∷ left_in source.now m rest.entry)) }
{
    match frame {
        ExceptionFrame::Tries(handlers) => try_first(arena, source, rest, exit, handlers),
        ExceptionFrame::Throws { .. } | ExceptionFrame::Fills { .. } => Ok(None),
        ExceptionFrame::Filled { .. } | ExceptionFrame::Trying { .. } => Ok(None),
        ExceptionFrame::Takes { .. } | ExceptionFrame::Taking { .. } => Ok(None),
        ExceptionFrame::Handling(_) => Ok(None),
    }
}

// An exception is tried at the first of these handlers, if there is one.
#[tactic(auto, using(crate::proofs::Tries::tries_more, crate::proofs::Tries::tries_none))]
fn try_first<'a>(
    arena: &'a Bump,
    source: &Source<'a>,
    rest: Rest<'a>,
    exit: Exit,
    handlers: KidsAt,
) -> Minding<'a>
    ensures { IfOk result (λ b. (m : Meaning) → past source.now m rest.entry exit b ≡ leaves (waits_in source.now m rest.entry) (exit_of (types_at source.now) m exit) (TriesAll (all_kids source.now.bound.now handlers) ∷ left_in source.now m rest.entry)) }
{
    match exit {
        Exit::Throws(exception) => match head(source.bound, handlers) {
            Some(handler) => {
                let frame = ExceptionFrame::Trying {
                    exception,
                    handler,
                    others: rest_of(source.bound, handlers),
                };
                Ok(Some(goes(arena, source, rest, Frame::Exception(frame))?))
            }
            None => Ok(None),
        },
        Exit::Returns(_) | Exit::Breaks | Exit::Continues => Ok(None),
    }
}

// A loop's body or a switch is left.
fn leave_statement<'a>(
    arena: &'a Bump,
    words: &mut Words<'a>,
    source: &Source<'a>,
    rest: Rest<'a>,
    exit: Exit,
    frame: StatementFrame,
) -> Minding<'a>
    ensures is { IfOk result (λ b. (m : Meaning) → Agrees (types_at source.now) m words.new → past source.now m rest.entry exit b ≡ leaves (waits_in source.now m rest.entry) (exit_of (types_at source.now) m exit) (statement_of (types_at source.now) m (units_of source.now) frame ∷ left_in source.now m rest.entry)) }
    ensures grows { (types : ℕ → Typ) (m : Meaning) → Agrees types m words.new → Agrees types m words.old }
{
    match frame {
        StatementFrame::Body(parts) => leave_body(arena, words, source, rest, exit, parts),
        StatementFrame::Switches => match exit {
            Exit::Breaks => {
                let zero = number(words, 0)?;
                Ok(Some(gives(arena, source, rest, zero)?))
            }
            Exit::Throws(_) | Exit::Returns(_) | Exit::Continues => Ok(None),
        },
        StatementFrame::Items(_) | StatementFrame::Test(_) | StatementFrame::Step(_) => Ok(None),
        StatementFrame::Picks(_) | StatementFrame::Compares { .. } => Ok(None),
        StatementFrame::Returning => Ok(None),
    }
}

// A loop's body is left.
fn leave_body<'a>(
    arena: &'a Bump,
    words: &mut Words<'a>,
    source: &Source<'a>,
    rest: Rest<'a>,
    exit: Exit,
    parts: LoopParts,
) -> Minding<'a>
    ensures is { IfOk result (λ b. (m : Meaning) → Agrees (types_at source.now) m words.new → past source.now m rest.entry exit b ≡ leaves (waits_in source.now m rest.entry) (exit_of (types_at source.now) m exit) (Bodies (tree_of source.now.bound.now parts.test) (tree_of source.now.bound.now parts.body) (tree_of source.now.bound.now parts.step) ∷ left_in source.now m rest.entry)) }
    ensures grows { (types : ℕ → Typ) (m : Meaning) → Agrees types m words.new → Agrees types m words.old }
{
    match exit {
        Exit::Breaks => {
            let zero = number(words, 0)?;
            Ok(Some(gives(arena, source, rest, zero)?))
        }
        Exit::Continues => Ok(Some(run_step(arena, source, rest, parts)?)),
        Exit::Throws(_) | Exit::Returns(_) => Ok(None),
    }
}

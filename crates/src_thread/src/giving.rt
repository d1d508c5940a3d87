//! How a thread goes on with a value.

ghost use Rattle.std.specs.Prelude.{◌≡◌, ◌∷◌, ℕ, IfOk, OnOk};
ghost use Rattle.cpp_tree.specs.tx_events.declared.Event.TheVariants.{Silent};
ghost use Rattle.src_mean.specs.Source.{give, end_of as end_of_block};
ghost use Rattle.src_mean.specs.Frames.{at, value as for_value, into, Run as Runs, Apply as Applies, UpdateBy as UpdatesBy};
ghost use Rattle.src_bind.specs.Bounds.{given};
ghost use Rattle.src_frames.specs.Shown.{open_shown, change_shown, value_shown, block_shown, end_shown};
ghost use Rattle.src_frames.specs.Bounds.{tree_of, frame_of, here_of, frames_of, linked_in, state_of, after};

use crate::leaving::leave;
use crate::objects::give_objects;
use crate::running::run;
use crate::stack::pop_frame;
use crate::statements::give_statement;
use crate::throwing::give_exception;
use cpp_tree::below::{BinOp, End, Event, IntKind};
use src_bind::Bound;
use src_frames::frames::{BlockFrame, Change, EndFrame, Frame, Open, ValueFrame, Way};
use src_frames::state::{Going, State};
use src_frames::trees::TreeAt;
use src_frames::words::{applied, converted, int_value, trap_of};
use std::alloc::AllocError;

// The last event of a block that is left by its end.
fn end_of(block: Open) -> Event
    ensures { result ≡ end_of_block (open_shown block) }
{
    match block {
        Open::Atomic(_) => Event::EndAtomic,
        Open::Sync => Event::EndSync,
    }
}

/// The thread goes on with a value.
pub(crate) fn give(state: &mut State, bound: &Bound<'_>, value: u64) -> Result<(), AllocError>
    ensures { OnOk result (state_of bound.now state.new ≡ give (linked_in bound.now) (here_of bound.now state.old) value (frames_of bound.now state.old)) }
{
    let mut value = value;
    while let Some(frame) = pop_frame(state, bound) {
        let left = state.frames.len();
        let Some(word) = give_to(state, bound, frame, value)? else {
            return Ok(());
        };
        // a value that goes on past a frame leaves no other frame behind
        if state.frames.len() > left {
            return Err(AllocError);
        }
        value = word;
    }
    state.event = Event::Silent;
    Ok(())
}

// Goes on with a value for a frame that was taken off.
#[tactic(auto, using(crate::proofs::Steps::run_tree))]
fn give_to(state: &mut State, bound: &Bound<'_>, frame: Frame, value: u64) -> Going
    ensures { IfOk result (λ o. after bound.now o state.new ≡ give (linked_in bound.now) (here_of bound.now state.old) value (frame_of bound.now frame ∷ frames_of bound.now state.old)) }
{
    match frame {
        Frame::Run(way, tree) => run(state, bound, way, tree),
        Frame::Then(way, tree) => state.run_next(bound, way, tree),
        Frame::Gives(word) => Ok(Some(word)),
        Frame::Leaves(exit) => leave(state, bound, exit),
        Frame::Value(frame) => give_value(state, bound, frame, value),
        Frame::Call(frame) => state.give_call(bound, frame, value),
        Frame::Object(frame) => give_objects(state, bound, frame, value),
        Frame::Statement(frame) => give_statement(state, bound, frame, value),
        Frame::Block(frame) => give_block(state, bound, frame),
        Frame::Exception(frame) => give_exception(state, bound, frame, value),
        Frame::End(frame) => give_end(state, bound, frame, value),
    }
}

// Goes on with the value of an operand.
fn give_value(state: &mut State, bound: &Bound<'_>, frame: ValueFrame, value: u64) -> Going
    ensures { IfOk result (λ o. after bound.now o state.new ≡ give (linked_in bound.now) (here_of bound.now state.old) value (value_shown (given bound.now).program frame ∷ frames_of bound.now state.old)) }
{
    match frame {
        ValueFrame::Loads(kind, volatile) => state.read(bound, value, kind, volatile),
        ValueFrame::Loaded(kind) => Ok(Some(converted(kind, value))),
        ValueFrame::Replied => Ok(Some(value)),
        ValueFrame::StoreTo {
            address,
            kind,
            volatile,
            answer,
        } => state.write(bound, address, kind, volatile, value, Frame::Gives(answer)),
        ValueFrame::Converts(kind) => Ok(Some(converted(kind, value))),
        ValueFrame::Right(op, kind, right) => {
            let then = ValueFrame::Apply(op, kind, value);
            run_before(state, bound, right, Frame::Value(then))
        }
        ValueFrame::Apply(op, kind, left) => apply(state, bound, op, kind, left, value),
        ValueFrame::Choose { way, chosen, other } => {
            if value == 0 {
                state.run_next(bound, way, other)
            } else {
                state.run_next(bound, way, chosen)
            }
        }
        ValueFrame::AssignTo(kind, volatile, right) => {
            let then = ValueFrame::StoreTo {
                address: value,
                kind,
                volatile,
                answer: value,
            };
            run_before(state, bound, right, Frame::Value(then))
        }
        ValueFrame::UpdateAt(change, right) => {
            let then = ValueFrame::UpdateOld(change, value, right);
            state.push(bound, Frame::Value(then))?;
            state.read(bound, value, change.stored, change.volatile)
        }
        ValueFrame::UpdateOld(change, address, right) => {
            let then = ValueFrame::UpdateBy {
                change,
                address,
                old: value,
            };
            run_before(state, bound, right, Frame::Value(then))
        }
        ValueFrame::UpdateBy {
            change,
            address,
            old,
        } => update(state, bound, change, address, old, value),
        ValueFrame::CopyTo { source, init } => {
            let then = ValueFrame::CopyBy {
                target: value,
                init,
            };
            run_before(state, bound, source, Frame::Value(then))
        }
        ValueFrame::CopyBy { target, init } => {
            state.push(bound, Frame::Gives(target))?;
            run_into(state, bound, target, value, init)
        }
        ValueFrame::From { target, init } => run_into(state, bound, target, value, init),
    }
}

/// A tree is run for its value, and then this frame goes on.
pub(crate) fn run_before(state: &mut State, bound: &Bound<'_>, tree: TreeAt, then: Frame) -> Going
    ensures { IfOk result (λ o. after bound.now o state.new ≡ at Silent (here_of bound.now state.old) (Runs for_value (tree_of bound.now tree) ∷ frame_of bound.now then ∷ frames_of bound.now state.old)) }
{
    state.push(bound, then)?;
    state.run_next(bound, Way::Value, tree)
}

/// Runs a tree into an object.
pub(crate) fn run_into(
    state: &mut State,
    bound: &Bound<'_>,
    target: u64,
    source: u64,
    tree: TreeAt,
) -> Going
    ensures { IfOk result (λ o. after bound.now o state.new ≡ at Silent (here_of bound.now state.old) (Runs (into target source) (tree_of bound.now tree) ∷ frames_of bound.now state.old)) }
{
    state.run_next(bound, Way::Into { target, source }, tree)
}

// The value of an operator on two words.
fn apply(
    state: &mut State,
    bound: &Bound<'_>,
    op: BinOp,
    kind: IntKind,
    left: u64,
    right: u64,
) -> Going
    ensures { IfOk result (λ o. after bound.now o state.new ≡ give (linked_in bound.now) (here_of bound.now state.old) right (Applies op kind left ∷ frames_of bound.now state.old)) }
{
    match applied(op, kind, left, right) {
        Ok(word) => Ok(Some(word)),
        Err(trap) => state.trap(bound, trap_of(trap)),
    }
}

// Stores the value of an update.
fn update(
    state: &mut State,
    bound: &Bound<'_>,
    change: Change,
    address: u64,
    old: u64,
    right: u64,
) -> Going
    ensures { IfOk result (λ o. after bound.now o state.new ≡ give (linked_in bound.now) (here_of bound.now state.old) right (UpdatesBy (change_shown change) address old ∷ frames_of bound.now state.old)) }
{
    match applied(change.op, change.operation, old, right) {
        Ok(word) => {
            let stored = converted(change.stored, word);
            let answer = if change.old { old } else { address };
            let then = Frame::Gives(answer);
            state.write(bound, address, change.stored, change.volatile, stored, then)
        }
        Err(trap) => state.trap(bound, trap_of(trap)),
    }
}

// Goes on in a block of the TS.
fn give_block(state: &mut State, bound: &Bound<'_>, frame: BlockFrame) -> Going
    ensures { (v : ℕ) → IfOk result (λ o. after bound.now o state.new ≡ give (linked_in bound.now) (here_of bound.now state.old) v (block_shown (given bound.now).program frame ∷ frames_of bound.now state.old)) }
{
    match frame {
        BlockFrame::Opens(block, body) => {
            run_before(state, bound, body, Frame::Block(BlockFrame::Within(block)))
        }
        BlockFrame::Within(block) => {
            state.comes(
                bound,
                end_of(block),
                Frame::Block(BlockFrame::Closes(block)),
            )
        }
        BlockFrame::Closes(_) => Ok(Some(0)),
    }
}

// The end of a thread's function, and what comes behind.
fn give_end(state: &mut State, bound: &Bound<'_>, frame: EndFrame, value: u64) -> Going
    ensures { IfOk result (λ o. after bound.now o state.new ≡ give (linked_in bound.now) (here_of bound.now state.old) value (end_shown frame ∷ frames_of bound.now state.old)) }
{
    match frame {
        EndFrame::Starts { main } => {
            if main {
                state.halt(bound, End::Exit(int_value(value)))
            } else {
                state.comes(bound, Event::Done, Frame::End(EndFrame::Ended))
            }
        }
        EndFrame::Halted(end) => {
            state.comes(
                bound,
                Event::Stop { end },
                Frame::End(EndFrame::Halted(end)),
            )
        }
        EndFrame::Ended => state.comes(bound, Event::Done, Frame::End(EndFrame::Ended)),
    }
}

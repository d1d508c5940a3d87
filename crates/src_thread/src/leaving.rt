//! How exceptions and jumps go outward (C++14 6.6, 15.2).

ghost use Rattle.std.specs.Prelude.{◌≡◌, ◌∷◌, IfOk, option_map};
ghost use Rattle.cpp_tree.specs.declared.program.Program.{Program};
ghost use Rattle.src_mean.specs.Source.{is_throw as is_thrown, closing as closing_event, leave as leaves, leave_call as leaves_call, rethrow as rethrows};
ghost use Rattle.src_mean.specs.Frames.{Exit as Exits, throws, Body as Bodies, Tries as TriesAll};
ghost use Rattle.src_bind.specs.Bounds.{given};
ghost use Rattle.src_frames.specs.Shown.{here_shown, open_shown, exit_shown, exception_shown, call_shown, object_shown, statement_shown, block_shown, throwing_shown, end_shown};
ghost use Rattle.src_frames.specs.Bounds.{tree_of, all_kids, frame_of, here_of, frames_of, linked_in, state_of, after};
ghost use Rattle.src_thread.specs.Left.{left_on};

use crate::objects::{clean, end_full};
use crate::stack::pop_frame;
use crate::statements::run_step;
use cpp_tree::below::{End, Event};
use src_bind::Bound;
use src_frames::frames::{
    BlockFrame, CallFrame, EndFrame, Exception, ExceptionFrame, Exit, Frame, Here, LoopParts,
    ObjectFrame, Open, StatementFrame,
};
use src_frames::state::{Going, State};
use src_frames::texts::cancels;
use src_frames::trees::{KidsAt, head, rest};
use std::alloc::AllocError;

// What a frame does with what goes outward. On `AllocError` the state is of no more use.
type Minding = Result<Left, AllocError>;

// What goes outward goes past a frame, or the frame minds it, and its step came to this.
#[derive(Clone, Copy)]
enum Left {
    Past,
    Made(Option<u64>),
}

// Whether it is an exception.
fn is_throw(exit: &Exit) -> bool
    ensures { (p : Program) → result ≡ is_thrown (exit_shown p exit.now) }
{
    match exit {
        Exit::Throws(_) => true,
        Exit::Returns(_) | Exit::Breaks | Exit::Continues => false,
    }
}

// The last event of a block that is left so.
fn closing(bound: &Bound<'_>, block: Open, exit: &Exit) -> Event
    ensures { result ≡ closing_event (open_shown block) (exit_shown (given bound.now).program exit.now) }
{
    match block {
        Open::Sync => Event::EndSync,
        Open::Atomic(kind) => match exit {
            Exit::Throws(exception) => Event::Raise {
                kind,
                cancels: cancels(bound, exception.thrown),
            },
            Exit::Returns(_) | Exit::Breaks | Exit::Continues => Event::EndAtomic,
        },
    }
}

/// What goes outward comes to the next frame that minds it.
pub(crate) fn leave(state: &mut State, bound: &Bound<'_>, exit: Exit) -> Going
    ensures { IfOk result (λ o. after bound.now o state.new ≡ leaves (here_of bound.now state.old) (exit_shown (given bound.now).program exit) (frames_of bound.now state.old)) }
{
    while let Some(frame) = pop_frame(state, bound) {
        let left = state.frames.len();
        if let Left::Made(going) = leave_at(state, bound, frame, exit)? {
            return Ok(going);
        }
        // a frame that does not mind it leaves no other frame behind
        if state.frames.len() > left {
            return Err(AllocError);
        }
    }
    state.event = Event::Silent;
    Ok(None)
}

// What goes outward comes to this frame, which was taken off.
#[tactic(auto, using(crate::proofs::Skips::skip_value))]
fn leave_at(state: &mut State, bound: &Bound<'_>, frame: Frame, exit: Exit) -> Minding
    ensures { IfOk result (λ b. left_on (linked_in bound.now) b (exit_shown (given bound.now).program exit) (state_of bound.now state.new) ≡ leaves (here_of bound.now state.old) (exit_shown (given bound.now).program exit) (frame_of bound.now frame ∷ frames_of bound.now state.old)) }
{
    match frame {
        Frame::Run(..) | Frame::Then(..) | Frame::Gives(_) | Frame::Leaves(_) => Ok(Left::Past),
        Frame::Value(_) => Ok(Left::Past),
        Frame::Call(frame) => leave_call(state, bound, frame, exit),
        Frame::Object(frame) => leave_objects(state, bound, frame, exit),
        Frame::Statement(frame) => leave_statement(state, bound, frame, exit),
        Frame::Block(frame) => leave_block(state, bound, frame, exit),
        Frame::Exception(frame) => leave_handlers(state, bound, frame, exit),
        Frame::End(frame) => leave_thread(state, bound, frame),
    }
}

// Objects that wait are destroyed.
fn leave_objects(state: &mut State, bound: &Bound<'_>, frame: ObjectFrame, exit: Exit) -> Minding
    ensures { IfOk result (λ b. left_on (linked_in bound.now) b (exit_shown (given bound.now).program exit) (state_of bound.now state.new) ≡ leaves (here_of bound.now state.old) (exit_shown (given bound.now).program exit) (object_shown (given bound.now).program frame ∷ (frames_of bound.now state.old))) }
{
    match frame {
        ObjectFrame::Scope {
            owner: _,
            always,
            waiting,
        } => {
            if always || is_throw(&exit) {
                Ok(Left::Made(clean(state, bound, waiting, Frame::Leaves(exit))?))
            } else {
                Ok(Left::Past)
            }
        }
        ObjectFrame::Full { outer } => {
            Ok(Left::Made(end_full(state, bound, outer, Frame::Leaves(exit))?))
        },
        ObjectFrame::Keeps(_) | ObjectFrame::Waits(..) | ObjectFrame::InitAt { .. } => Ok(
            Left::Past,
        ),
        ObjectFrame::Cleans(_) | ObjectFrame::Due(_) | ObjectFrame::Destroys { .. } => Ok(
            Left::Past,
        ),
        ObjectFrame::Parts { .. } | ObjectFrame::Each { .. } => Ok(Left::Past),
    }
}

// A block of the TS is left.
fn leave_block(state: &mut State, bound: &Bound<'_>, frame: BlockFrame, exit: Exit) -> Minding
    ensures { IfOk result (λ b. left_on (linked_in bound.now) b (exit_shown (given bound.now).program exit) (state_of bound.now state.new) ≡ leaves (here_of bound.now state.old) (exit_shown (given bound.now).program exit) (block_shown (given bound.now).program frame ∷ (frames_of bound.now state.old))) }
{
    match frame {
        BlockFrame::Within(block) => {
            let event = closing(bound, block, &exit);
            state.push(bound, Frame::Leaves(exit))?;
            Ok(Left::Made(state.comes(bound, event, Frame::Block(BlockFrame::Closes(block)))?))
        }
        BlockFrame::Opens(..) | BlockFrame::Closes(_) => Ok(Left::Past),
    }
}

// A function is left; an exception that may not leave it ends the program (C++14 15.4, 15.5.1).
fn leave_call(state: &mut State, bound: &Bound<'_>, frame: CallFrame, exit: Exit) -> Minding
    ensures { IfOk result (λ b. left_on (linked_in bound.now) b (exit_shown (given bound.now).program exit) (state_of bound.now state.new) ≡ leaves (here_of bound.now state.old) (exit_shown (given bound.now).program exit) (call_shown (given bound.now) frame ∷ (frames_of bound.now state.old))) }
{
    match frame {
        CallFrame::Called { caller, stops } => {
            Ok(Left::Made(leave_function(state, bound, caller, stops, exit)?))
        }
        CallFrame::Words { .. } | CallFrame::Object { .. } | CallFrame::Slot { .. } => Ok(
            Left::Past,
        ),
        CallFrame::Pointer { .. } | CallFrame::Passes { .. } => Ok(Left::Past),
    }
}

// A function is left for its caller.
fn leave_function(
    state: &mut State,
    bound: &Bound<'_>,
    caller: Here,
    stops: bool,
    exit: Exit,
) -> Going
    ensures { IfOk result (λ o. after bound.now o state.new ≡ leaves_call (exit_shown (given bound.now).program exit) (here_of bound.now state.old) (here_shown (given bound.now) caller) stops (frames_of bound.now state.old)) }
{
    match exit {
        Exit::Throws(_) => {
            if stops {
                state.halt(bound, End::Terminate)
            } else {
                state.here = caller;
                state.goes(bound, Frame::Leaves(exit))
            }
        }
        Exit::Returns(word) => {
            state.here = caller;
            state.gives(bound, word)
        }
        Exit::Breaks | Exit::Continues => {
            state.here = caller;
            state.goes(bound, Frame::Leaves(exit))
        }
    }
}

// An exception comes to handlers.
fn leave_handlers(
    state: &mut State,
    bound: &Bound<'_>,
    frame: ExceptionFrame,
    exit: Exit,
) -> Minding
    ensures { IfOk result (λ b. left_on (linked_in bound.now) b (exit_shown (given bound.now).program exit) (state_of bound.now state.new) ≡ leaves (here_of bound.now state.old) (exit_shown (given bound.now).program exit) (throwing_shown (given bound.now).program frame ∷ (frames_of bound.now state.old))) }
{
    match frame {
        ExceptionFrame::Tries(handlers) => match exit {
            Exit::Throws(exception) => try_first(state, bound, handlers, exception),
            Exit::Returns(_) | Exit::Breaks | Exit::Continues => Ok(Left::Past),
        },
        ExceptionFrame::Throws { .. } | ExceptionFrame::Fills { .. } => Ok(Left::Past),
        ExceptionFrame::Filled { .. } | ExceptionFrame::Trying { .. } => Ok(Left::Past),
        ExceptionFrame::Takes { .. } | ExceptionFrame::Taking { .. } => Ok(Left::Past),
        ExceptionFrame::Handling(_) => Ok(Left::Past),
    }
}

// The first of these handlers is tried, if there is one.
#[tactic(auto, using(crate::proofs::Steps::tries_more, crate::proofs::Steps::tries_none))]
fn try_first(
    state: &mut State,
    bound: &Bound<'_>,
    handlers: KidsAt,
    exception: Exception,
) -> Minding
    ensures { IfOk result (λ b. left_on (linked_in bound.now) b (throws (exception_shown (given bound.now).program exception)) (state_of bound.now state.new) ≡ leaves (here_of bound.now state.old) (throws (exception_shown (given bound.now).program exception)) (TriesAll (all_kids bound.now handlers) ∷ (frames_of bound.now state.old))) }
{
    match head(bound, handlers) {
        Some(handler) => {
            let frame = ExceptionFrame::Trying {
                exception,
                handler,
                others: rest(bound, handlers),
            };
            Ok(Left::Made(state.goes(bound, Frame::Exception(frame))?))
        }
        None => Ok(Left::Past),
    }
}

// A loop's body or a switch is left.
fn leave_statement(
    state: &mut State,
    bound: &Bound<'_>,
    frame: StatementFrame,
    exit: Exit,
) -> Minding
    ensures { IfOk result (λ b. left_on (linked_in bound.now) b (exit_shown (given bound.now).program exit) (state_of bound.now state.new) ≡ leaves (here_of bound.now state.old) (exit_shown (given bound.now).program exit) (statement_shown (given bound.now).program frame ∷ (frames_of bound.now state.old))) }
{
    match frame {
        StatementFrame::Body(parts) => leave_body(state, bound, parts, exit),
        StatementFrame::Switches => match exit {
            Exit::Breaks => Ok(Left::Made(state.gives(bound, 0)?)),
            Exit::Throws(_) | Exit::Returns(_) | Exit::Continues => Ok(Left::Past),
        },
        StatementFrame::Items(_) | StatementFrame::Test(_) | StatementFrame::Step(_) => Ok(
            Left::Past,
        ),
        StatementFrame::Picks(_) | StatementFrame::Compares { .. } => Ok(Left::Past),
        StatementFrame::Returning => Ok(Left::Past),
    }
}

// A loop's body is left.
fn leave_body(state: &mut State, bound: &Bound<'_>, parts: LoopParts, exit: Exit) -> Minding
    ensures { IfOk result (λ b. left_on (linked_in bound.now) b (exit_shown (given bound.now).program exit) (state_of bound.now state.new) ≡ leaves (here_of bound.now state.old) (exit_shown (given bound.now).program exit) (Bodies (tree_of bound.now parts.test) (tree_of bound.now parts.body) (tree_of bound.now parts.step) ∷ (frames_of bound.now state.old))) }
{
    match exit {
        Exit::Breaks => Ok(Left::Made(state.gives(bound, 0)?)),
        Exit::Continues => Ok(Left::Made(run_step(state, bound, parts)?)),
        Exit::Throws(_) | Exit::Returns(_) => Ok(Left::Past),
    }
}

// Nothing goes out of a thread.
fn leave_thread(state: &mut State, bound: &Bound<'_>, frame: EndFrame) -> Minding
    ensures { (x : Exits) → IfOk result (λ b. left_on (linked_in bound.now) b x (state_of bound.now state.new) ≡ leaves (here_of bound.now state.old) x (end_shown frame ∷ (frames_of bound.now state.old))) }
{
    match frame {
        EndFrame::Starts { main } => {
            state.push(bound, Frame::End(EndFrame::Starts { main }))?;
            Ok(Left::Made(state.halt(bound, End::Terminate)?))
        }
        EndFrame::Halted(_) | EndFrame::Ended => Ok(Left::Past),
    }
}

/// The exception at hand goes outward once more.
pub(crate) fn rethrow(state: &mut State, bound: &Bound<'_>, handled: Option<Exception>) -> Going
    ensures { IfOk result (λ o. after bound.now o state.new ≡ rethrows (here_of bound.now state.old) (option_map (exception_shown (given bound.now).program) handled) (frames_of bound.now state.old)) }
{
    match handled {
        Some(exception) => leave(state, bound, Exit::Throws(exception)),
        None => state.halt(bound, End::Terminate),
    }
}

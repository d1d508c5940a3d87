//! The terms and exceptions of frames.

use crate::form::{Found, put, put_puts, put_terms, put_three, put_thrown, put_two};
use symbolic_terms::frames::{
    CallFrame, Callee, ExceptionFrame, Exit, Frame, Frames, ObjectFrame, Spot, StatementFrame,
    ValueFrame, Waiting, Waitings, Way,
};
use symbolic_terms::ids::{ExceptionId, PutsId, WordId};
use symbolic_terms::refusal::Refusal;

fn put_spot(found: &mut Found, spot: Spot) -> Result<(), Refusal> {
    match spot {
        Spot::Word(word) => put(found, word),
        Spot::Tree(_) => Ok(()),
    }
}

fn put_waiting(found: &mut Found, waiting: Waiting) -> Result<(), Refusal> {
    put_spot(found, waiting.address)
}

/// Objects that wait.
pub(crate) fn put_waitings<'a>(found: &mut Found, waitings: Waitings<'a>) -> Result<(), Refusal> {
    match waitings {
        Waitings::Empty => Ok(()),
        Waitings::More(waiting, rest) => {
            put_waiting(found, waiting)?;
            put_waitings(found, *rest)
        }
    }
}

fn put_way(found: &mut Found, way: Way) -> Result<(), Refusal> {
    match way {
        Way::Value => Ok(()),
        Way::Into { target, source } => put_two(found, target, source),
    }
}

/// What goes outward.
pub(crate) fn put_exit(found: &mut Found, exit: Exit) -> Result<(), Refusal> {
    match exit {
        Exit::Throws(exception) => put_thrown(found, exception),
        Exit::Returns(word) => put(found, word),
        Exit::Breaks | Exit::Continues => Ok(()),
    }
}

/// What is called.
pub(crate) fn put_callee(found: &mut Found, callee: Callee) -> Result<(), Refusal> {
    match callee {
        Callee::Virtual { address, .. } => put(found, address),
        Callee::Pointer { address, .. } => put(found, address),
        Callee::Known(_) | Callee::Builtin(_) => Ok(()),
    }
}

fn put_value(found: &mut Found, value: ValueFrame) -> Result<(), Refusal> {
    match value {
        ValueFrame::StoreTo {
            address,
            answer,
            ..
        } => put_two(found, address, answer),
        ValueFrame::Apply(_, _, left) => put(found, left),
        ValueFrame::Choose { way, .. } => put_way(found, way),
        ValueFrame::UpdateOld(_, address, _) => put(found, address),
        ValueFrame::UpdateBy { address, old, .. } => put_two(found, address, old),
        ValueFrame::CopyBy { target, .. } => put(found, target),
        ValueFrame::From { target, .. } => put(found, target),
        ValueFrame::Loads(..)
        | ValueFrame::Loaded(_)
        | ValueFrame::Replied
        | ValueFrame::Converts(_)
        | ValueFrame::Right(..)
        | ValueFrame::AssignTo(..)
        | ValueFrame::UpdateAt(..)
        | ValueFrame::CopyTo { .. } => Ok(()),
    }
}

fn put_call<'a>(found: &mut Found, call: CallFrame<'a>) -> Result<(), Refusal> {
    match call {
        CallFrame::Words { callee, before, .. } => {
            put_callee(found, callee)?;
            put_terms(found, before)
        }
        CallFrame::Object { before, .. } => put_terms(found, before),
        CallFrame::Slot { before, .. } => put_terms(found, before),
        CallFrame::Pointer { before, .. } => put_terms(found, before),
        CallFrame::Passes { words: passed, .. } => put_terms(found, passed),
    }
}

fn put_object<'a>(found: &mut Found, object: ObjectFrame<'a>) -> Result<(), Refusal> {
    match object {
        ObjectFrame::Full { outer } => put_waitings(found, outer),
        ObjectFrame::Keeps(waiting) => put_waiting(found, waiting),
        ObjectFrame::Scope { waiting, .. } => put_waitings(found, waiting),
        ObjectFrame::Waits(_, waiting) => put_waiting(found, waiting),
        ObjectFrame::Cleans(waiting) => put_waitings(found, waiting),
        ObjectFrame::Destroys { address, left, .. } => put_two(found, address, left),
        ObjectFrame::Parts { target, source, .. } => put_two(found, target, source),
        ObjectFrame::Each {
            left,
            target,
            source,
            ..
        } => put_three(found, left, target, source),
        ObjectFrame::InitAt { .. } | ObjectFrame::Due(_) => Ok(()),
    }
}

fn put_statement(found: &mut Found, statement: StatementFrame) -> Result<(), Refusal> {
    match statement {
        StatementFrame::Compares { word, .. } => put(found, word),
        StatementFrame::Items(_)
        | StatementFrame::Test(_)
        | StatementFrame::Body(_)
        | StatementFrame::Step(_)
        | StatementFrame::Picks(_)
        | StatementFrame::Switches
        | StatementFrame::Returning => Ok(()),
    }
}

// What fills an exception.
fn put_filling(found: &mut Found, from: WordId, puts: PutsId) -> Result<(), Refusal> {
    put(found, from)?;
    put_puts(found, puts)
}

// What takes the fields of an exception.
fn put_taking(found: &mut Found, exception: ExceptionId, base: WordId) -> Result<(), Refusal> {
    put_thrown(found, exception)?;
    put(found, base)
}

fn put_throwing(found: &mut Found, frame: ExceptionFrame) -> Result<(), Refusal> {
    match frame {
        ExceptionFrame::Throws { .. } | ExceptionFrame::Tries(_) => Ok(()),
        ExceptionFrame::Fills { from, puts, .. } => put_filling(found, from, puts),
        ExceptionFrame::Filled { from, puts, .. } => put_filling(found, from, puts),
        ExceptionFrame::Trying { exception, .. } => put_thrown(found, exception),
        ExceptionFrame::Takes {
            exception,
            base,
            ..
        } => put_taking(found, exception, base),
        ExceptionFrame::Taking {
            exception,
            base,
            ..
        } => put_taking(found, exception, base),
        ExceptionFrame::Handling(exception) => put_thrown(found, exception),
    }
}

fn put_frame<'a>(found: &mut Found, frame: Frame<'a>) -> Result<(), Refusal> {
    match frame {
        Frame::Run(way, _) => put_way(found, way),
        Frame::Then(way, _) => put_way(found, way),
        Frame::Address(word) => put(found, word),
        Frame::Gives(word) => put(found, word),
        Frame::Leaves(exit) => put_exit(found, exit),
        Frame::Value(value) => put_value(found, value),
        Frame::Call(call) => put_call(found, call),
        Frame::Object(object) => put_object(found, object),
        Frame::Statement(statement) => put_statement(found, statement),
        Frame::Block(_) => Ok(()),
        Frame::Exception(exception) => put_throwing(found, exception),
    }
}

/// The frames, the innermost first.
pub(crate) fn put_frames<'a>(found: &mut Found, frames: Frames<'a>) -> Result<(), Refusal> {
    match frames {
        Frames::Empty => Ok(()),
        Frames::More(frame, rest) => {
            put_frame(found, frame)?;
            put_frames(found, *rest)
        }
    }
}

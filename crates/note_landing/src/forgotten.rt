//! A note of a handler that an exception of a known type enters: nothing is known of the exception there.
//!
//! Nothing is claimed of it: it is what the search begins with.

use crate::ahead::{Pace, advance};
use crate::class_names::plain_text;
use crate::compiled::{Compiled, Room};
use crate::unfit::Missing;
use cpp_tree::below::{Shape, Ty};
use std::alloc::{AllocError, Global};
use symbolic_frames::places::catching;
use symbolic_steps::{Case, CaseAnswers};
use symbolic_terms::arena::keep;
use symbolic_terms::comparison::equal_thrown;
use symbolic_terms::frames::{ExceptionFrame, Exit, Frame, Frames};
use symbolic_terms::ids::{ExceptionId, Exceptions};
use symbolic_terms::made;
use symbolic_terms::outcomes::{Outcome, Rest};
use symbolic_terms::places::Place;
use symbolic_terms::refusal::Refusal;
use symbolic_terms::words::Words;

/// A number that no other unknown exception has.
const FRESH: u32 = 4000;

// The case of a type.
fn case_of<'a>(alloc: Global, body: &Compiled<'a>, ty: &Ty) -> Result<Case, AllocError> {
    match &ty.shape {
        Shape::Class(class) => Ok(Case::Class(*class)),
        _ => {
            let classes = body.source.bound.program().classes.as_slice();
            Ok(Case::Spelling(plain_text(alloc, ty, classes)?))
        }
    }
}

// The exception that is known, and the unknown one that comes in its place.
#[derive(Clone, Copy)]
struct Exchange {
    known: ExceptionId,
    fresh: ExceptionId,
}

// The unknown exception in the place of the known one.
fn fresh_for<'a>(words: &Words<'a>, thrown: ExceptionId, exchange: Exchange) -> ExceptionId {
    if equal_thrown(words, thrown, exchange.known) {
        exchange.fresh
    } else {
        thrown
    }
}

// The frame with the unknown exception in the place of the known one.
fn unknown_in<'a>(words: &Words<'a>, frame: Frame<'a>, exchange: Exchange) -> Frame<'a> {
    match frame {
        Frame::Leaves(Exit::Throws(thrown)) => {
            Frame::Leaves(Exit::Throws(fresh_for(words, thrown, exchange)))
        }
        Frame::Exception(
            ExceptionFrame::Trying {
                exception: thrown,
                handler,
                others,
            },
        ) => Frame::Exception(ExceptionFrame::Trying {
            exception: fresh_for(words, thrown, exchange),
            handler,
            others,
        }),
        other => other,
    }
}

// The frames with the unknown exception in the place of the known one.
fn forget_in<'a>(
    room: Room<'a>,
    words: &Words<'a>,
    frames: Frames<'a>,
    exchange: Exchange,
) -> Result<Frames<'a>, Refusal> {
    match frames {
        Frames::Empty => Ok(Frames::Empty),
        Frames::More(frame, rest) => {
            let others = forget_in(room, words, *rest, exchange)?;
            let forgotten = unknown_in(words, frame, exchange);
            Ok(Frames::More(forgotten, keep(room.arena, others)?))
        }
    }
}

// What goes outward is unknown.
fn forget<'a>(
    room: Room<'a>,
    words: &Words<'a>,
    outcome: Outcome<'a>,
    exchange: Exchange,
) -> Result<Outcome<'a>, Refusal> {
    match outcome {
        Outcome::Goes(leading, rest) => Ok(Outcome::Goes(
            leading,
            Rest {
                temporaries: rest.temporaries,
                frames: forget_in(room, words, rest.frames, exchange)?,
            },
        )),
        other => Ok(other),
    }
}

// The place with the unknown exception in the place of the innermost handler's.
fn place_with<'a>(
    room: Room<'a>,
    place: Place<'a>,
    fresh: ExceptionId,
) -> Result<Place<'a>, Refusal> {
    let caught = match place.caught {
        Exceptions::Empty => Exceptions::Empty,
        Exceptions::More(_, rest) => *rest,
    };
    let outer = Place {
        operands: place.operands,
        opens: place.opens,
        caught,
        hold: place.hold,
    };
    catching(room.arena, outer, fresh)
}

// Whether the exception leaves this frame, or is offered to its handlers.
fn is_leaving<'a>(words: &Words<'a>, frame: Frame<'a>, exception: ExceptionId) -> bool {
    match frame {
        Frame::Leaves(Exit::Throws(thrown)) => equal_thrown(words, thrown, exception),
        Frame::Exception(
            ExceptionFrame::Trying {
                exception: thrown,
                handler: _,
                others: _,
            },
        ) => equal_thrown(words, thrown, exception),
        _ => false,
    }
}

// Whether the exception leaves one of these frames.
fn is_in_flight<'a>(words: &Words<'a>, frames: Frames<'a>, exception: ExceptionId) -> bool {
    match frames {
        Frames::Empty => false,
        Frames::More(frame, rest) => {
            is_leaving(words, frame, exception) || is_in_flight(words, *rest, exception)
        }
    }
}

// Whether the source has thrown the exception: that in which code holds words is of no source.
fn is_of_source<'a>(words: &Words<'a>, outcome: Outcome<'a>, exception: ExceptionId) -> bool {
    match outcome {
        Outcome::Goes(_, rest) => is_in_flight(words, rest.frames, exception),
        _ => false,
    }
}

/// A note that is missing at a handler, with nothing known of the exception, where the source has thrown it.
pub(crate) fn forgotten<'a>(
    room: Room<'a>,
    words: &mut Words<'a>,
    body: &Compiled<'a>,
    pace: Pace,
    typ: u32,
    exception: ExceptionId,
    before: Outcome<'a>,
    missing: Missing<'a>,
) -> Result<Missing<'a>, Refusal> {
    if !is_of_source(words, before, exception) {
        return Ok(missing);
    }
    let Some(ty) = body.source.types.get(typ as usize) else {
        return Err(Refusal::Untold);
    };
    let case = case_of(room.alloc, body, ty)?;
    let answers = CaseAnswers::InCase {
        exception: FRESH,
        case: &case,
        known: body.spellings,
    };
    let exchange = Exchange {
        known: exception,
        fresh: made::unknown(words, FRESH)?,
    };
    let unknown = forget(room, words, before, exchange)?;
    let ahead = advance(room, words, &body.source, answers, pace, unknown)?;
    Ok(Missing {
        index: missing.index,
        known: missing.known,
        place: place_with(room, missing.place, exchange.fresh)?,
        outcome: ahead.outcome,
    })
}

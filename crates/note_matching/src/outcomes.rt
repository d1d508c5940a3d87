//! The terms and exceptions of outcomes and places.

use crate::form::{Found, put, put_exceptions, put_puts, put_terms, put_thrown, put_two};
use crate::frames::{put_callee, put_exit, put_frames, put_waitings};
use symbolic_terms::frames::{Exit, Waitings};
use symbolic_terms::ids::WordId;
use symbolic_terms::outcomes::{Doing, Leading, Outcome, Rest};
use symbolic_terms::places::{Hold, Place};
use symbolic_terms::refusal::Refusal;

fn put_doing(found: &mut Found, doing: Doing) -> Result<(), Refusal> {
    match doing {
        Doing::Reads { address, .. } => put(found, address),
        Doing::Writes { address, word, .. } => put_two(found, address, word),
        Doing::PutsOut(word) => put(found, word),
        Doing::Joins(word) => put(found, word),
        Doing::LeavesBlock(_, exit) => put_exit(found, exit),
        Doing::Silent
        | Doing::TakesIn
        | Doing::BeginsAtomic(_)
        | Doing::BeginsSync
        | Doing::EndsBlock(_) => Ok(()),
    }
}

fn put_leading<'a>(found: &mut Found, leading: Leading<'a>) -> Result<(), Refusal> {
    match leading {
        Leading::Does(doing) => put_doing(found, doing),
        Leading::Calls {
            callee,
            words: passed,
        } => {
            put_callee(found, callee)?;
            put_terms(found, passed)
        }
        Leading::Spawns { address, argument } => put_two(found, address, argument),
        Leading::Rethrows => Ok(()),
    }
}

fn put_rest<'a>(found: &mut Found, rest: Rest<'a>) -> Result<(), Refusal> {
    put_waitings(found, rest.temporaries)?;
    put_frames(found, rest.frames)
}

fn put_going<'a>(found: &mut Found, leading: Leading<'a>, rest: Rest<'a>) -> Result<(), Refusal> {
    put_leading(found, leading)?;
    put_rest(found, rest)
}

fn put_handed<'a>(found: &mut Found, word: WordId, waiting: Waitings<'a>) -> Result<(), Refusal> {
    put(found, word)?;
    put_waitings(found, waiting)
}

fn put_leaving<'a>(found: &mut Found, exit: Exit, waiting: Waitings<'a>) -> Result<(), Refusal> {
    put_exit(found, exit)?;
    put_waitings(found, waiting)
}

/// An outcome.
pub(crate) fn put_outcome<'a>(found: &mut Found, outcome: Outcome<'a>) -> Result<(), Refusal> {
    match outcome {
        Outcome::Stuck | Outcome::Halts(_) => Ok(()),
        Outcome::Goes(leading, rest) => put_going(found, leading, rest),
        Outcome::Hands(word, waiting) => put_handed(found, word, waiting),
        Outcome::GoesOut(exit, waiting) => put_leaving(found, exit, waiting),
        Outcome::Chooses { word, zero, other } => {
            put(found, word)?;
            put_outcome(found, *zero)?;
            put_outcome(found, *other)
        }
        Outcome::Results {
            left,
            right,
            then,
            ..
        } => {
            put_two(found, left, right)?;
            put_outcome(found, *then)
        }
        Outcome::Finds { address, then, .. } => {
            put(found, address)?;
            put_outcome(found, *then)
        }
    }
}

fn put_hold(found: &mut Found, hold: Hold) -> Result<(), Refusal> {
    match hold {
        Hold::Nothing => Ok(()),
        Hold::Making(_, puts) => put_puts(found, puts),
        Hold::Flying(exception) => put_thrown(found, exception),
    }
}

/// A place.
pub(crate) fn put_place<'a>(found: &mut Found, place: Place<'a>) -> Result<(), Refusal> {
    put_terms(found, place.operands)?;
    put_exceptions(found, place.caught)?;
    put_hold(found, place.hold)
}

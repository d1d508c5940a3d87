//! What can come of a step: a state, or what it depends on.

use crate::frames::{Callee, Exit, Frames, Waitings};
use crate::ids::{Terms, WordId};
use cpp_tree::below::{BinOp, BlockKind, End, IntKind};
use src_frames::frames::Open;

/// An event.
#[derive(Clone, Copy)]
pub enum Doing {
    Silent,
    Reads {
        address: WordId,
        size: u32,
        volatile: bool,
    },
    Writes {
        address: WordId,
        kind: IntKind,
        word: WordId,
        volatile: bool,
    },
    PutsOut(WordId),
    TakesIn,
    Joins(WordId),
    BeginsAtomic(BlockKind),
    BeginsSync,
    EndsBlock(Open),
    LeavesBlock(Open, Exit),
}

/// What the function at hand has left to do: the temporaries that wait, the newest first, and its frames, the innermost
/// first.
#[derive(Clone, Copy)]
pub struct Rest<'a> {
    pub temporaries: Waitings<'a>,
    pub frames: Frames<'a>,
}

/// What a state does, or asks for, in which the function at hand has something left to do.
#[derive(Clone, Copy)]
pub enum Leading<'a> {
    /// This event.
    Does(Doing),
    Calls { callee: Callee, words: Terms<'a> },
    Spawns { address: WordId, argument: WordId },
    /// What a caller's handler has.
    Rethrows,
}

/// What comes of a step.
#[derive(Clone, Copy)]
pub enum Outcome<'a> {
    /// Not foreseen.
    Stuck,
    /// A state in which the function at hand has this left to do.
    Goes(Leading<'a>, Rest<'a>),
    /// The function is done, and its caller goes on with the value.
    Hands(WordId, Waitings<'a>),
    /// This leaves the function.
    GoesOut(Exit, Waitings<'a>),
    /// Whether the word is 0.
    Chooses {
        word: WordId,
        zero: &'a Outcome<'a>,
        other: &'a Outcome<'a>,
    },
    /// Whether the operator traps.
    Results {
        op: BinOp,
        kind: IntKind,
        left: WordId,
        right: WordId,
        then: &'a Outcome<'a>,
    },
    /// Whether the slot has a function.
    Finds {
        class: u32,
        slot: u32,
        address: WordId,
        then: &'a Outcome<'a>,
    },
    Halts(End),
}

//! A frame of code with terms as operands, and what is known of words.

use crate::ids::{ExceptionId, Exceptions, PutsId, Terms, WordId};
use src_frames::frames::Open;

/// A frame's exception: none, one that is made, or one in flight.
#[derive(Clone, Copy)]
pub enum Hold {
    Nothing,
    /// Of the type with this number in the list of types of exceptions.
    Making(u32, PutsId),
    Flying(ExceptionId),
}

/// Open blocks, the innermost first.
#[derive(Clone, Copy)]
pub enum Opens<'a> {
    Empty,
    More(Open, &'a Opens<'a>),
}

/// Operands, the top first; open blocks and exceptions of entered handlers, the innermost first; and the frame's exception.
#[derive(Clone, Copy)]
pub struct Place<'a> {
    pub operands: Terms<'a>,
    pub opens: Opens<'a>,
    pub caught: Exceptions<'a>,
    pub hold: Hold,
}

/// What is known of a word.
#[derive(Clone, Copy)]
pub enum Fact {
    NotZero(WordId),
    /// The slot of the class at this address has a function.
    HasFunction {
        class: u32,
        slot: u32,
        address: WordId,
    },
}

/// What is known, the newest first.
#[derive(Clone, Copy)]
pub enum Facts<'a> {
    Empty,
    More(Fact, &'a Facts<'a>),
}

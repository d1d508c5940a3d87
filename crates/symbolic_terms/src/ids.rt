//! Words and exceptions of frames by their numbers, and lists of them.

/// A word, by its number among those that were made.
#[derive(Clone, Copy, Debug, PartialEq, Eq)]
pub struct WordId {
    pub number: u32,
}

/// An exception, by its number among those that were made.
#[derive(Clone, Copy, Debug, PartialEq, Eq)]
pub struct ExceptionId {
    pub number: u32,
}

/// The words that were put into an exception, by their number among those that were made.
#[derive(Clone, Copy, Debug, PartialEq, Eq)]
pub struct PutsId {
    pub number: u32,
}

/// Words: operands, the top first, or the words of a call in their order.
#[derive(Clone, Copy)]
pub enum Terms<'a> {
    Empty,
    More(WordId, &'a Terms<'a>),
}

/// Exceptions, that of the innermost handler first.
#[derive(Clone, Copy)]
pub enum Exceptions<'a> {
    Empty,
    More(ExceptionId, &'a Exceptions<'a>),
}

//! The text of a schedule: which thread takes each turn.
//!
//! A text is a list of lines, each `T` or `T*N` and a newline. `T` is a thread, `N` a number of turns from 2 on, both in decimal
//! without leading zeros. What a text means is defined in `specs/Text.antt`, apart from how it is read or written.
#![tactic(auto)]

pub mod laws;
mod number;
mod reader;
mod writer;

pub use reader::read;
use thiserror::Error;
pub use writer::write;

/// The turns of one thread, one after the other: what a line of the text says.
#[derive(Clone, Copy, PartialEq, Eq, Debug)]
pub struct Run {
    pub thread: u8,
    pub count: u32,
}

/// A schedule that was read.
#[derive(PartialEq, Debug, Drop)]
pub struct Schedule {
    /// The thread of each turn, for the first 4,000,000 turns.
    pub entries: Vec<u8>,
    /// Whether the text has more turns than these.
    pub has_more: bool,
}

/// Why a text was not read.
#[derive(Error, Clone, Copy, PartialEq, Eq, Debug)]
pub enum ScheduleFault {
    /// The number of the first line outside the grammar, counted from 1.
    #[error("line {line}: no line of a schedule")]
    BadSchedule { line: usize },
    #[error("out of memory")]
    Memory,
}

//! Which thread holds which word of memory, for reading or for writing.
//!
//! A thread takes the words that its transaction accesses and releases them one by one, the least first. All that a
//! caller sees of a table is a relation of thread, word and mode: `hold_of` of `specs/Table.antt`.
#![tactic(auto)]

pub mod bits;
mod held;
pub mod hold;
mod stripe;
mod stripes;
mod table;
mod words;

/// The number of stripes of a table.
pub const STRIPES: u64 = 1024;

pub use hold::{HoldRec, Mode};
pub use table::Holders;

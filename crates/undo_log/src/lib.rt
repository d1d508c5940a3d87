//! What the words of a memory held before they were stored to, savepoint by savepoint.
//!
//! A log is one list of notes, and each savepoint is a mark in it: the position at which its notes begin. Putting back
//! all notes since a mark gives the memory at that mark: the laws of `laws`. An index by word tells whether the newest
//! mark notes a word, without a search of its notes.
#![tactic(auto)]

mod index;
pub mod laws;
mod list;
pub mod notes;
mod undo;

pub use notes::Note;
pub use undo::Log;

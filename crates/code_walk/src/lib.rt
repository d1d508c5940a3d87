//! The walk of a body of code: each index is given its first shape, by the instructions and rows that lead there.
//!
//! `specs/Walk` is the walk over any indexes and shapes, `specs/Bodies` a body as it is walked, and `specs/Clean` a body in
//! which the walk finds no broken clause of sound code. `specs/Slots` has what the code's slots show, `specs/RowTrees` how
//! the rows that cover an index are found.
#![tactic(auto)]

pub mod laws;
pub mod names;
pub mod nests;
pub mod rows;
pub mod shapes;
mod slots;
mod waiting;
pub mod walk;
pub mod words;

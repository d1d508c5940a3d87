//! Whether the code of an image is sound, and which clause is broken first where it is not.
//!
//! `specs/Rules` has the clauses as numbered tests, at the shapes that the walk of `code_walk` gives. `specs/Faults` is the
//! fault that is found, and `specs/Places` says which it is.
#![tactic(auto)]

pub mod clauses;
mod edges;
pub mod faults;
pub mod rules;
pub mod verified;

pub use verified::{BadCode, GoodImage, verify};

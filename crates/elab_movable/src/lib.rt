//! Trees of expressions in a function that has only `this` have of its frame only that pointer, which is read.
#![tactic(auto)]

pub mod laws;

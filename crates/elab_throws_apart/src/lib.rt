//! No operand is a `throw` of an object: around each `throw` stands what says that it has no value.
#![tactic(auto)]

pub mod laws;

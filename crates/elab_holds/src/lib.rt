//! What the laws of expressions ask of a context holds of those that elaboration makes.
#![tactic(auto)]

pub mod laws;

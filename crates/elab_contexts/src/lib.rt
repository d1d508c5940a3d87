//! What the laws of expressions ask of a context, wherever elaboration makes one.
#![tactic(auto)]

pub mod laws;

//! Each program that elaboration answers is well formed: all that is asked of a body, of each body of each unit.
#![tactic(auto)]

pub mod laws;

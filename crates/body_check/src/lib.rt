//! Bodies with notes, held against the functions that they are compiled from.
#![tactic(auto)]

pub mod laws;

//! Which row of a lowered body takes an exception.
#![tactic(auto)]

pub mod laws;

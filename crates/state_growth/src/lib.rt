//! What stands in a state of elaboration stands in each later one.
#![tactic(auto)]

pub mod laws;

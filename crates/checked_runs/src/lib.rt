//! Runs of checked code are runs of its source.
#![tactic(auto)]

pub mod laws;

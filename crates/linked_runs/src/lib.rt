//! Runs of linked images are runs of their source.
#![tactic(auto)]

pub mod laws;

//! What stays as a body is written.
#![tactic(auto)]

pub mod laws;

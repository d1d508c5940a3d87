//! What is left to write of a body, read as what the source has left to do.
#![tactic(auto)]

pub mod laws;

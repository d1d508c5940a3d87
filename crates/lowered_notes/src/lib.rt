//! The notes of a lowered body: what the source has left to do where this is left to write.
#![tactic(auto)]

pub mod laws;

//! In a well-formed body in which the safety check finds nothing, no initialiser that counts is marked `volatile`.
#![tactic(auto)]

pub mod laws;

//! What a unit that is read from a text has of what the laws of elaboration ask of syntax trees.
#![tactic(auto)]

pub mod laws;

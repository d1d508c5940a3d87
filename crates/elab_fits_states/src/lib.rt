//! The states of elaboration inside of a function are a discipline: statements fit.
#![tactic(auto)]

pub mod laws;

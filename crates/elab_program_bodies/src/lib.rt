//! Each body of each function of a program that elaboration answers is one of its function, with its own places.
#![tactic(auto)]

pub mod laws;

//! Items of lists in braces build the objects that they initialise, by the test of well-formed bodies.
#![tactic(auto)]

pub mod laws;

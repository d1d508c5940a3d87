//! What initialises objects of class type fits where it comes to stand, by the test of well-formed bodies.
#![tactic(auto)]

pub mod laws;

//! What braces initialise fits where it comes to stand, by the test of well-formed bodies.
#![tactic(auto)]

pub mod laws;

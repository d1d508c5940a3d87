//! What elaboration makes fits where it comes to stand, by the test of well-formed bodies.
#![tactic(auto)]

pub mod laws;
pub mod object_laws;

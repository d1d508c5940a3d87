//! Which nodes of a well-formed body are run which way.
#![tactic(auto)]

pub mod laws;

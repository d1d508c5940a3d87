//! The bodies that elaboration makes of functions and members fit as statements.
#![tactic(auto)]

pub mod laws;

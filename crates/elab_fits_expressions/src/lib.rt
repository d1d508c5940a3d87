//! All expressions that elaborate mean something.
#![tactic(auto)]

pub mod laws;

//! Laws of linked images.
#![tactic(auto)]

pub mod laws;

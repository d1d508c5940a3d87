//! Whether symbolic frames, outcomes and places are the same.
#![tactic(auto)]

pub mod frames;
pub mod kinds;
pub mod outcomes;
pub mod parts;

//! How many turns a program needs that spawns nothing, told by the cost of its source.
#![tactic(auto)]

pub mod images;
pub mod laws;
pub mod linked;

//! Each program that elaboration answers fits: the nodes of each body of each unit.
#![tactic(auto)]

pub mod laws;

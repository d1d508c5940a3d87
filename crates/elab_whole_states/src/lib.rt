//! A discipline of statements with which the items of the frame stay whole.
#![tactic(auto)]

pub mod laws;

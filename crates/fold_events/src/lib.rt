//! Constant folding keeps what a program does.
#![tactic(auto)]

pub mod laws;

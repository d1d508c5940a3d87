//! Captures of lambdas: those that are written, and those of a default, by what a body names of the function around
//! (C++14 5.1.2 p8 to p15).
#![tactic(auto)]

pub mod captures;
pub mod explicit;
pub mod names;
pub mod scanning;

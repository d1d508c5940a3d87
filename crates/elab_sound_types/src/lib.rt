//! The types of expressions are types that C++ has.
#![tactic(auto)]

pub mod laws;

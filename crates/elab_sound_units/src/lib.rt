//! The types of each unit's context are types that C++ has.
#![tactic(auto)]

pub mod laws;

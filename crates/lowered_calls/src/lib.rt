//! Calls and returns where they were written: each instruction comes to the note of what is left behind it.
#![tactic(auto)]

pub mod laws;

//! Where something is left to write, an instruction comes to the note of what is left behind it.
#![tactic(auto)]

pub mod laws;

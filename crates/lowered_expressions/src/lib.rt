//! What expressions write where they are left to write: each instruction comes to the note of what is left behind it.
#![tactic(auto)]

pub mod laws;

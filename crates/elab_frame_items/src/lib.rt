//! Whatever class an item of the frame holds is complete.
#![tactic(auto)]

pub mod laws;

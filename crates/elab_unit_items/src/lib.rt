//! Whatever class an item of the frame of a body holds is complete, in all bodies of a unit.
#![tactic(auto)]

pub mod laws;

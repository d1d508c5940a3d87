//! Whether a run is one of its source, and keeps the turn bound: a program that spawns nothing never waits, and ends in 66 turns for each step of its source
//! and 64 more.
#![tactic(auto)]

pub mod laws;
mod runs;

pub use runs::is_run_of;

//! What is written of a run of a linked program.
#![tactic(auto)]

mod lines;
mod writes;

pub use writes::run_writes;

//! Runs of a linked program under a picker and a policy of the command line.
#![tactic(auto)]

pub mod laws;
mod picks;
mod run;

pub use run::run_named;

//! Runs of a linked program with their traces, under a picker and a policy of the command line.
#![tactic(auto)]

mod picks;
mod run;

pub use run::trace_named;

//! The command `races`: all that `run` does, and then the report of the races of the run.
#![tactic(auto)]

mod command;
mod steps;

pub use command::races;

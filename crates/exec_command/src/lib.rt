//! The command `exec`: objects are read, linked, verified and run. What `run` shares with it is public: the schedule, and all that follows once the objects are there.
#![tactic(auto)]

mod command;
pub mod files;
pub mod refusals;
pub mod steps;

pub use command::{exec, halt_schedule};

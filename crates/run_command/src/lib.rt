//! The commands that compile sources: `run`, which runs what they are compiled to, `selftest`, which runs a generated program, and `build`, which writes an object.
#![tactic(auto)]

pub mod below;
mod building;
pub mod laws;
mod running;
mod selftesting;
mod steps;

pub use building::build;
pub use held_runs::held_against_source;
pub use running::run;
pub use selftesting::selftest;
pub use steps::folded_if;

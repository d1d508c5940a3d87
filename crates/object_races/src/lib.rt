//! Objects are linked, verified and run, and the races of the run are found and reported.
#![tactic(auto)]

mod regular;
mod runs;
mod steps;

pub use steps::with_objects;

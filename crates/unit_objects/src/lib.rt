//! The objects of the units of a safe program.
#![tactic(auto)]

mod compiling;

pub use compiling::{unit_object, unit_objects};

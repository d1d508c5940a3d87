//! Where a step of a compiled body leads to: the note of an index that agrees with what was computed.
#![tactic(auto)]

pub mod ahead;
pub mod cases;
mod class_names;
pub mod compiled;
pub mod flights;
mod forgotten;
pub mod landing;
pub mod notes;
mod operands;
mod rows;
pub mod spellings;
pub mod steps;
pub mod unfit;

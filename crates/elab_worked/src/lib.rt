//! Worked units of elaboration, computed by the check.
#![tactic(auto)]

pub mod class_refusals;
pub mod classes;
pub mod programs;
pub mod refusals;

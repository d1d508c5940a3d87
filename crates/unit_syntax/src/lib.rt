//! The trees of a unit in one list of nodes, in which the body of each lambda is its last kid.
#![tactic(auto)]

pub mod laws;
pub mod whole;

pub use whole::{WholeUnit, whole_unit};

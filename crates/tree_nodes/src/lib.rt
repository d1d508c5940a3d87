//! The nodes of a unit: their order, and what a node's tree is.
#![tactic(auto)]

pub mod nodes;
pub mod order;

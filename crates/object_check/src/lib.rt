//! A test of the conditions on objects: whether some bytes spell an object.
#![tactic(auto)]

mod bodies;
mod entries;
mod order;
mod whole;

pub use whole::is_object;

//! What is made for an expression stands behind what was made before it, so it can be cut off again.
#![tactic(auto)]

pub mod cut;
pub mod laws;

pub use cut::cut_back;

//! Lists of nodes that are forests: a tree is copied behind other nodes, each node of it anew, and a program of such lists is well formed where its bodies are.
#![tactic(auto)]

pub mod copying;
pub mod laws;

pub use copying::copy_tree;

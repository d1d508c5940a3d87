//! The places of the frame that trees have are those of the items that were added while the trees were made, each at most once.
#![tactic(auto)]

pub mod laws;

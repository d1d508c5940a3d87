//! Objects of typed units: what a unit defines and refers to, with a plain body for each function and a safe body for
//! those that may be called in a transaction.
#![tactic(auto)]

mod bodies;
mod entries;
mod generating;
mod lines;
mod lowered;
mod naming;
mod renaming;

pub use generating::generate;

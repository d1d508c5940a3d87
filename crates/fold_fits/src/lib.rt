//! Folding keeps programs well formed.
#![tactic(auto)]

pub mod laws;

//! The source thread with terms in the place of words: what a function does next, whatever its words are.
#![tactic(auto)]

pub mod laws;

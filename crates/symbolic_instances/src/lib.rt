//! Forms with variables and what they are with terms in the place of these: what comes of the second comes of the first.
#![tactic(auto)]

pub mod laws;

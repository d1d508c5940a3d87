//! Objects that are made and destroyed in lowered bodies, and scopes that end.
#![tactic(auto)]

pub mod laws;

//! Initialisers of members, as they are kept, build the members where objects are built.
#![tactic(auto)]

pub mod laws;

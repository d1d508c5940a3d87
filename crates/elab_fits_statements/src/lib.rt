//! What elaboration makes of statements fits where it comes to stand, given that expressions stand.
#![tactic(auto)]

pub mod laws;

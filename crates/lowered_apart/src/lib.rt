//! Where temporaries wait no jump is held.
#![tactic(auto)]

pub mod laws;

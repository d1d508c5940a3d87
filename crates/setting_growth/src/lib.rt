//! What fits in the setting of a unit fits still where the setting has grown.
#![tactic(auto)]

pub mod laws;

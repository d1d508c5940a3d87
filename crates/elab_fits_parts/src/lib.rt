//! Parts of classes, and functions that no text declares, are as bodies ask.
#![tactic(auto)]

pub mod laws;

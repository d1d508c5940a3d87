//! Laws of elaboration: what statements leave as it is, so that what the code puts back behind a function is what the
//! definitions say.
#![tactic(auto)]

pub mod laws;

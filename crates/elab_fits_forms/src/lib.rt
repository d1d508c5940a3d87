//! Names, calls, casts, `throw` and the choices between objects fit where they come to stand.
#![tactic(auto)]

pub mod laws;

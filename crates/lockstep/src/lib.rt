//! Two threads in lockstep: a relation that is kept by moves of both shows that they have the same events.
#![tactic(auto)]

pub mod laws;

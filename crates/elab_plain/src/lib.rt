//! Each declaration that elaboration makes tells its object by an address that is no `?:`.
#![tactic(auto)]

pub mod laws;

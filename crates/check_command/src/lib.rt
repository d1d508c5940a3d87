//! The command `check`, which says whether sources are a safe program.
#![tactic(auto)]

mod checking;

pub use checking::check;

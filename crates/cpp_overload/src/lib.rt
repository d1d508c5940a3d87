//! Which of several functions a call means (C++14 13.3).
#![tactic(auto)]

pub mod calls;
pub mod choice;
pub mod laws;

pub use calls::{Arg, Cand, NoBest};
pub use choice::choose;

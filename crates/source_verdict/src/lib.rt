//! What becomes of the texts of sources before anything is linked: each is cut to tokens and read as a unit, the units get their typed program, and that is
//! checked for safety; or the first refusal on this way.
#![tactic(auto)]

mod front;
mod judging;
pub mod laws;
pub mod limits;
mod names;
mod places;
mod refusals;

pub use judging::{Verdict, verdict_of};

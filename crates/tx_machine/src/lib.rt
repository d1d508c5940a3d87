//! Runs of modelled threads: turn after turn, as a picker picks and a policy answers, up to a bound.
//!
//! A run is `RunOf` of `tx_serial` under the picks and the answers that were given. `run_actor` runs any actor; an
//! observer may watch its turns, and changes nothing of them.
#![tactic(auto)]

mod counts;
mod course;
pub mod image;
mod observer;
mod run;

pub use counts::Counts;
pub use observer::{Observer, Unwatched};
pub use run::{Finished, Ran, run_actor};

/// The most turns that a run may have.
pub const TURN_LIMIT: u32 = 4_000_000;

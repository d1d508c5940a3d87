//! An order of threads of a source program, replayed entry by entry in the world where each outermost atomic block is
//! one indivisible step.
//!
//! Nothing of the machine is used: no instructions, no holders of words, no policies. So what a run recorded is judged
//! here by another road.
//!
//! "The TS" is ISO/IEC TS 19841:2015.
#![tactic(auto)]

pub mod alone;
mod block;
pub mod laws;
mod memories;
mod nested;
pub mod replaying;
mod threads;
mod turns;
mod world;

pub use alone::{AloneEnd, AloneRun, run_alone};
pub use replaying::{ReplayFault, Replayed, replay};

//! A thread of a linked program, as the machine runs it: an `Actor` whose steps are what the instructions mean.
//!
//! `specs/Threads` has the thread system, which is tx_code's meaning of code in one image, and `specs/ThreadLaws` its laws.
#![tactic(auto)]

mod deciding;
pub mod laws;
mod lookups;
mod plain;
pub mod thread;

pub use thread::{Here, VmThread};

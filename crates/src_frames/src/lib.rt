//! What a thread of a source program has left to do, and how a step of it goes on: states, frames, calls.
//!
//! A tree is named by the place of its node. `specs/Shown.antt` says which state of `src_mean` a state shows.
//!
//! "C++14" is ISO/IEC 14882:2014, and "the TS" is ISO/IEC TS 19841:2015.
#![tactic(auto)]

pub mod bytes;
pub mod calls;
pub mod frames;
pub mod stack;
pub mod state;
pub mod texts;
pub mod trees;
pub mod words;

pub use state::{Going, State};

//! What one thread of a source program does, step by step, and what it costs: the meaning of the typed program.
//!
//! `specs/Source.antt` is the thread (`source`), on the states of `specs/Frames.antt`, for every linked program
//! (`specs/Linked.antt`); `specs/Links.antt` makes one of typed units. `specs/Cost.antt` counts the steps of a replay.
//!
//! "C++14" is ISO/IEC 14882:2014, and "the TS" is ISO/IEC TS 19841:2015.
#![tactic(auto)]

pub mod examples;
pub mod frames;
pub mod laws;

pub use frames::frame_of;

//! The frames of a thread: their operands in one stack, and what a step does to them.
//!
//! The definitions say what the vectors show (`specs/Stacks`, `specs/Frames`, `specs/FrameStacks`), in the terms of tx_code's
//! meaning of code, and what a step does (`specs/Steps`).
#![tactic(auto)]

pub mod changes;
pub mod frames;
pub mod parts;
pub mod stack;
pub mod step;
pub mod values;

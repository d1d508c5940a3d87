//! Terms in the place of the variables of frames, outcomes, places and facts, and what steps do with lists of frames.
#![tactic(auto)]

pub mod known;
pub mod outcomes;
pub mod places;
pub mod replaced;
pub mod stacks;

//! What the syntax trees of a unit mean: its typed program, as definitions.
#![tactic(auto)]

pub mod below;

/// The most parameters of a function (C++14 annex B; the number: the profile).
pub const MOST_PARAMETERS: usize = 64;

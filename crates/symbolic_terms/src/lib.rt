//! Words, exceptions, frames and outcomes of the symbolic source, and places of the symbolic code, as data.
//!
//! `specs/Shown.antt` says which term, frame, outcome or place of the definitions a value shows.
#![tactic(auto)]

pub mod arena;
pub mod comparison;
pub mod frames;
pub mod ids;
pub mod made;
pub mod outcomes;
pub mod places;
pub mod refusal;
pub mod replacing;
pub mod sums;
pub mod terms;
pub mod words;

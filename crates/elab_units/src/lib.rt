//! Units as they are written: their declarations in the order of the text, and the typed program of all of them (C++14
//! 2.1, 3.5, clause 7).
#![tactic(auto)]

pub mod beginning;
pub mod declarations;
pub mod definitions;
pub mod joining;
pub mod known;
mod lambdas;
pub mod programs;
pub mod shown;

pub use programs::elaborate;

//! Constant folding of typed programs (C++14 5.19 says what a constant expression is; here whatever has a value before the run gets it).
#![tactic(auto)]

mod bare;
mod copying;
pub mod examples;
pub mod laws;
mod program;
pub mod sights;
mod volatility;
pub mod words;

pub use program::fold_bodies;

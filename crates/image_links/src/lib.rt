//! Whether an image is that of a bound program: equal numbers, sizes, addresses and slots.
#![tactic(auto)]

pub mod agreeing;
pub mod calls;
pub mod laws;
pub mod lookups;
pub mod tables;

pub use agreeing::agrees;

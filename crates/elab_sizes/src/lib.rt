//! How long the spellings of types are, and the limit on them.
#![tactic(auto)]

pub mod rooms;
pub mod sized;

pub use sized::{function_sized, too_long, typ_sized};

//! Values and conversions as typed nodes.
#![tactic(auto)]

pub mod below;
pub mod conversions;
pub mod types;
pub mod values;

pub use conversions::{converted, stepped, stored};
pub use values::valued;

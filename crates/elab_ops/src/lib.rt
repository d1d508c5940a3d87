//! Operators as typed nodes, from operands that are typed.
#![tactic(auto)]

pub mod arithmetic;
pub mod comparisons;
pub mod names;
pub mod operands;
pub mod pointers;
pub mod truth;
pub mod updates;

pub use arithmetic::{complement, minus, plus};
pub use comparisons::binary;
pub use names::{binary_operator, compound_operator};
pub use operands::{ill, number_kind, value};
pub use pointers::{address_of, indirection, is_complete, subscript};
pub use truth::{logical, negation};
pub use updates::{compound, step};

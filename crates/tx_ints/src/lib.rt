//! The integers of the language: their kinds, the conversions between kinds, and operators that trap where C++ leaves
//! the result undefined. A value is an `i128` in its kind's range.
#![tactic(auto)]

pub mod conversions;
pub mod kinds;
pub mod laws;
pub mod operators;
pub mod words;

pub use conversions::{convert, promote, reduce, usual};
pub use kinds::{ArithTrap, BinOp, IntKind};
pub use operators::{apply, negate};
pub use words::{value_of_word, word_of};

//! Constant expressions, read off typed trees, and the bytes of strings.
#![tactic(auto)]

pub mod addresses;
pub mod constants;
pub mod rows;
pub mod strings;
pub mod words;

pub use addresses::{AddressOf, address};
pub use constants::constant;
pub use strings::string_bytes;
pub use words::word_in;

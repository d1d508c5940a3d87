//! Casts, `sizeof`, `throw` and strings as typed nodes, from operands that are typed.
#![tactic(auto)]

pub mod below;
pub mod casts;
pub mod strings;
pub mod throws;

pub use casts::{cast, functional, size_literal};
pub use strings::string_made;
pub use throws::{throw, within_exception};

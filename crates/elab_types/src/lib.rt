//! Types as specifiers and declarators give them, and reading syntax nodes.
#![tactic(auto)]

pub mod declarators;
pub mod kids;
pub mod parts;
pub mod records;
pub mod specifiers;
pub mod syntax;
pub mod types;

pub use records::{Declared, Parameter, Qualifiers, Specifiers};

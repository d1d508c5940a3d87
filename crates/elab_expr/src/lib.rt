//! The recursion over expressions, type-ids and declarators.
#![tactic(auto)]

pub mod below;
pub mod declarators;
pub mod expressions;
mod forms;
mod literals;
pub mod scratch;

pub use declarators::{declared, parameter, parameters, type_id, type_of_specifiers};
pub use expressions::{chosen_expression, expression, operands};
pub use scratch::copy_types;

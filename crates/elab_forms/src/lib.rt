//! Assignments, `? :`, `,` and dropped values as typed nodes, from operands that are typed.
#![tactic(auto)]

pub mod assignments;
pub mod below;
mod common_types;
pub mod conditionals;
pub mod drops;
pub mod exceptions;
pub mod thrown;

pub use assignments::assignment;
pub use conditionals::conditional;
pub use drops::{comma, dropped};
pub use thrown::{bare_throw, throws};

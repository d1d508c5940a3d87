//! The typed forms of expressions, each from its operands.
#![tactic(auto)]

pub mod below;
pub mod bounds;
pub mod calls;
pub mod closures;
pub mod few;
pub mod leaves;
pub mod names;
pub mod over;
pub mod rows;
pub mod written;

pub use bounds::bounded;
pub use calls::{call_row, cast_row, chosen_row, closure_row, functional_row, sized_row};
pub use leaves::leaf_row;
pub use names::qualified_row;
pub use rows::row;
pub use written::{written_specifiers, written_type};

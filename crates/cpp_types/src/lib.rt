//! The types of the language, its class records, and the conversions between types.
#![tactic(auto)]

pub mod classes;
pub mod comparison;
pub mod conversions;
pub mod copyability;
pub mod copying;
pub mod equality;
pub mod laws;
pub mod order;
mod qualifiers;
pub mod ranks;
pub mod spelling;
pub mod types;

pub use classes::{At, ClassRec, FuncRec, MemberRec, Safety};
pub use comparison::better;
pub use conversions::{conversion_between, rank, steps_to_base};
pub use copyability::trivially_copyable;
pub use copying::{copy, copy_function};
pub use equality::{equal_kinds, equal_lists, equal_shapes, equal_types, same, same_function};
pub use order::is_in_order;
pub use ranks::{Binding, Cat, Conversion, Rank, Step};
pub use spelling::spell;
pub use types::{FnTy, Shape, Ty};

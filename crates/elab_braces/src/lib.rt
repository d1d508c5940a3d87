//! What initialises objects: nothing, `= e`, values in parentheses, and braces with all braces in them (C++14 8.5).
#![tactic(auto)]

pub mod braces;
pub mod expressions;
pub mod forms;
pub mod initialising;
pub mod objects;

pub use braces::item;
pub use expressions::string_initialiser;
pub use forms::{Written, bound_by_initialiser, read_initialiser};
pub use initialising::{copy_initialised, default_object, directly_initialised, values_place};
pub use objects::object_by;

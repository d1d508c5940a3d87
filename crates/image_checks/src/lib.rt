//! Whether an image is the code of a bound program: equal tables, the same globals, and notes for each body.
#![tactic(auto)]

pub mod checking;

pub use checking::{is_code_of_program, is_code_of_source};

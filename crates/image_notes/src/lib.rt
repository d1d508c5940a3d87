//! Whether the bodies of an image have notes with which they are checked against the functions of a bound program.
#![tactic(auto)]

mod bodies;
mod thrown;

pub use bodies::{all_have_notes, body_has_notes};
pub use thrown::exception_types;

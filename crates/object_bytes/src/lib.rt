//! The bytes of objects: the one spelling of each, which `write` gives, and the first wrong field of bytes that spell none.
//!
//! The definitions stand in `specs/`: `Spelling` has the bytes of each part, `Decoder`, `Fields`, `Instructions` and `Objects`
//! have the fields in their order, each with its condition. What an object names, and where its first unused name and its
//! first wrong base stand, are calls here, since they speak of an object as a whole.
#![tactic(auto)]

mod chains;
pub mod laws;
mod naming;
mod op;
mod source;
mod unused;
mod whole;
mod writing;

pub use chains::first_wrong_base;
pub use naming::{instr_name, names_used};
pub use op::{Op, op_of};
pub use source::source_name;
pub use unused::{first_unused, name_size};
pub use whole::is_whole;
pub use writing::{number_of, write};

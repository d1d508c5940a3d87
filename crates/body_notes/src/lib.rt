//! Notes of a compiled body: found by a search, and tested.
#![tactic(auto)]

mod callees;
mod calls;
mod checked;
mod entry;
mod fits;
mod named;
mod returns;
mod search;
mod whole;

pub use whole::has_notes;

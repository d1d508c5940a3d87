//! Objects as text.
#![tactic(auto)]

mod again;
mod assembling;
mod assembly;
mod bodies;
mod entries;
mod fault;
pub mod laws;

pub use again::printed_again;
pub use assembling::assemble;
pub use assembly_text::print;
pub use fault::AsmFault;

//! The commands `dis` and `asm`: the assembly text of an object file, and the object file of an assembly text.
#![tactic(auto)]

mod assembling;
mod disassembling;

pub use assembling::asm;
pub use disassembling::dis;

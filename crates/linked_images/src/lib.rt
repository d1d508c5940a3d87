//! Whether an image is linked from a bound program, where its bodies are checked: the same tables, and the same memory at the start.
#![tactic(auto)]

pub mod globals;
pub mod laws;
pub mod tables;

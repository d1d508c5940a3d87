//! The memory of the machine: the globals and one stack for each thread number.
//!
//! What is mapped, and what a load and a store do to a memory seen as words of 8 bytes, is defined by `tx_events`.
#![tactic(auto)]

mod memory;
mod parts;

pub use memory::Memory;

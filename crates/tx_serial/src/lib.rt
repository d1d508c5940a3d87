//! Turns of modelled threads, and the serial order that they keep.
//!
//! Threads run their atomic blocks side by side, one instruction a turn, and hold words of memory while they do. Here
//! stands what one turn does (`specs/Machine`, `specs/Turn`) and what a run of turns comes to (`specs/Run`), over maps and
//! sets alone. The laws say that the order in which turns and whole blocks came to their ends replays in a world where
//! each outermost atomic block is one indivisible step, whatever turns come and whatever the policy answers. No function
//! here does anything: its clause is the law.
#![tactic(auto)]

pub mod bound;
pub mod examples;
pub mod kinds;
pub mod order;
pub mod runs;
pub mod steps;
pub mod trace;
pub mod waits;

//! From the typed nodes of a function's body to its instructions and unwind rows.
//!
//! A body is written by a list of what is still to be written, the next item last: a node puts its kids there and what
//! follows them, as the source thread puts frames on what it has left to do. Nothing here recurs.
#![tactic(auto)]

mod blocks;
mod calls;
mod conditions;
mod exceptions;
mod expressions;
mod functions;
mod items;
mod kids;
mod leaving;
mod lowering;
mod objects;
mod pads;
mod parts;
mod steps;
mod writing;

pub use functions::{LowFunc, lower_function};

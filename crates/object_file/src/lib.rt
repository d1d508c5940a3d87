//! Objects as bytes.
#![tactic(auto)]

mod bodies;
mod classes;
mod fault;
mod funcs;
mod globals;
mod instrs;
mod names;
mod numbers;
mod object;
mod reading;

pub use fault::ObjectFault;
pub use object_bytes::{Op, laws, op_of, write};
pub use reading::read;

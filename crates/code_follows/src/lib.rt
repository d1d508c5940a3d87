//! What an instruction of a body does, with terms as operands, where the source does this next.
#![tactic(auto)]

pub mod blocks;
pub mod events;
pub mod exceptions;
pub mod following;
pub mod names;
pub mod next;
pub mod operands;
pub mod operators;

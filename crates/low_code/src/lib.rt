//! Bodies of functions under construction: instructions with the places that they stem from and the scopes that they
//! stand in, and the names that they speak of.
//!
//! A scope says what an exception does that leaves an instruction, and what is done where the scope is left on another
//! way. Scopes are kept in a list, each with its parent before it, so that what lies around an instruction is one number.
//! The unwind rows of a body are made from these numbers, piece by piece: no row covers indexes of two scopes.
#![tactic(auto)]

pub mod caught;
pub mod effects;
pub mod names;
pub mod nodes;
pub mod numbers;
pub mod rows;
pub mod scopes;
pub mod temporaries;
pub mod types;
pub mod writer;

pub use names::NameTable;
pub use scopes::{Address, Owner, Scope, ScopeKind};
pub use writer::{Catch, Jump, LowInstr, Sort, Writer};

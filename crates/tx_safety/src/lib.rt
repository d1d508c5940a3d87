//! The safety check: no body of an atomic block, and no definition of a function that is declared `transaction_safe`,
//! has an unsafe part.
//!
//! `specs/Safe.antt` says which functions are safe at which places and what the first unsafe node of a program is.
//! Which nodes are unsafe by themselves stands in `tx_unsafe`.
//!
//! "The TS" is ISO/IEC TS 19841:2015.
#![tactic(auto)]

pub mod checking;
pub mod examples;
pub mod fault;
mod findings;
pub mod laws;
mod marks;
pub mod safe_program;

pub use checking::check;
pub use fault::SafetyFault;
pub use safe_program::SafeProgram;

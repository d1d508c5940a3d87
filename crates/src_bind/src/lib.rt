//! Binding: which definition each symbol of a program's units is kept as, with the numbers of functions and classes and the
//! addresses of globals.
//!
//! `specs/Tables.antt` has the linked program that the tables show: that of `src_mean`, where what slots name and which
//! functions have safe bodies stand in tables.
//!
//! "C++14" is ISO/IEC 14882:2014.
#![tactic(auto)]

pub mod binding;
pub mod bound;
pub mod bound_program;
pub mod choices;
pub mod defs;
pub mod globals;
pub mod infos;
pub mod laws;
pub mod lists;
pub mod numbers;

pub use binding::bind;
pub use bound_program::Bound;
pub use choices::Choices;
pub use infos::{FuncInfo, WordAt};

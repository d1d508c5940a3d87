//! Statements, and statements in statements (C++14 clause 6, 15.3; the TS, [stmt.sync], [stmt.tx]).
#![tactic(auto)]

pub mod below;
pub mod fours;
pub mod nodes;
pub mod recursion;
pub mod simple;

pub use recursion::{statement, statements};

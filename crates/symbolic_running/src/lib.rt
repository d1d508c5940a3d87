//! What a node of a function of a bound program does first, with terms in the place of numbers.
//!
//! "C++14" is ISO/IEC 14882:2014, and "the TS" is ISO/IEC TS 19841:2015.
#![tactic(auto)]

mod calls;
mod leaves;
pub mod next;
mod objects;
mod operations;
pub mod running;
mod statements;
pub mod words;

//! What globals are made of: the first bytes of variables, and the symbols of functions.
#![tactic(auto)]

pub mod cells;
pub mod symbols;

pub use cells::cells_of;
pub use symbols::symbol_of;

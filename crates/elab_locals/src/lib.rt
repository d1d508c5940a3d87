//! Variables and declarations of blocks (C++14 3.3.3, 6.7, 7.1.6.4, 8.5).
#![tactic(auto)]

pub mod autos;
pub mod below;
pub mod declarations;
pub mod deduction;
pub mod inits;
pub mod variables;
pub mod written;

pub use declarations::block_declaration;

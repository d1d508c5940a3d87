//! Lambdas: their classes, captures and calls, made before the full-expression that holds them (C++14 5.1.2; the TS,
//! [expr.prim.lambda]).
#![tactic(auto)]

pub mod closures;
pub mod making;
pub mod traits;
pub mod undoing;
pub mod written;

pub use written::AllLambdas;

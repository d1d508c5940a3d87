//! Scopes, full-expressions and the statements that hold no others.
#![tactic(auto)]

pub mod below;
pub mod full;
pub mod handlers;
pub mod labels;
pub mod lambdas;
pub mod marks;
pub mod nodes;
pub mod reading;
pub mod returns;
pub mod scopes;
pub mod simple;
pub mod state;

pub use lambdas::{MakeLambdas, NoLambdas};
pub use marks::mark_here;
pub use state::{Body, Caught, Mark, State, SwitchedOn};

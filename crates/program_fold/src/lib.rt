//! The folded program of a safe one: well formed and safe as that is.
#![tactic(auto)]

mod checking;
mod folding;

pub use folding::fold;

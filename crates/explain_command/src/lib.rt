//! The command `explain`, which says what a refusal of a source means.
#![tactic(auto)]

mod explaining;

pub use explaining::explain;

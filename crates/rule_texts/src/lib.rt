//! What each refusal of a source means, in a few lines, with a text that breaks the rule and one that keeps it.
#![tactic(auto)]

mod search;
mod table;

pub use search::explanation;
pub use table::Explanation;

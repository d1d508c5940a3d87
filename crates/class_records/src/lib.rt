//! Classes begun and completed: their records, their slots, and what holds of them.
#![tactic(auto)]

pub mod beginning;
pub mod closing;
mod renewing;
pub mod slots;
mod within;

pub use beginning::{begun, no_traits};
pub use closing::{closed_class, completed, sized_class};
pub use renewing::{next_completion, push_class};
pub use slots::slots_of;

//! The entries of a unit's object: what the unit defines and refers to, apart from the code of bodies.
//!
//! `specs/Entries.antt` defines them over the typed program, `specs/Uses.antt` what a unit refers to, and
//! `specs/Records.antt` what an object says by its entries.
#![tactic(auto)]

mod bodies;
pub mod classes;
pub mod examples;
pub mod functions;
pub mod globals;
pub mod naming;
pub mod places;
pub mod sizes;
pub mod texts;
pub mod uses;

pub use classes::class_entries;
pub use functions::{Setting, func_entries};
pub use globals::global_entries;
pub use naming::entry_names;
pub use uses::{Uses, uses_of};

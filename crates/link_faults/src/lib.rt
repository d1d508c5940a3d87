//! Why objects can't be linked: the first fault, with the least symbol.
//!
//! The definitions stand in `specs/`: the conditions as tests of objects and a symbol (`Faults`), and what the calls answer
//! (`Answers`). The code goes over numbers: a name's rank is its position among all names, and the other definitions
//! (`Ranks`, `Ranked`, `Claims`, `Disputes`, `RankedClasses`, `Kept`, `Unlisted`) say the same by ranks.
#![tactic(auto)]

mod check;
mod claims;
mod classes;
mod definitions;
mod disputes;
mod entries;
pub mod examples;
mod fault;
pub mod laws;
mod missing;
mod names;
mod size;
mod tables;
mod twice;
mod unlisted;

pub use check::check_objects;
pub use entries::name_rank;
pub use fault::LinkFault;
pub use names::{all_names, rank};
pub use size::globals_size;

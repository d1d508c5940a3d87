//! A typed program as text: a line for each class, global, function and node.
#![tactic(auto)]

pub mod classes;
pub mod dumping;
pub mod functions;
pub mod globals;
pub mod kinds;
pub mod nodes;
pub mod places;
pub mod referred;
pub mod sections;
pub mod sizes;
pub mod texts;

pub use dumping::dump;
pub use places::{Place, place_of};

//! The syntax of a C++14 unit: nodes in a list, each with the ids of its kids.
//!
//! `NodeKind` names the forms of the grammar in the words of C++14 annex A. `specs/Shapes.antt` says which kids each
//! has, and `specs/Trees.antt` which syntax tree a list of nodes shows.
#![tactic(auto)]

pub mod arena;
pub mod kinds;
pub mod laws;
pub mod units;

pub use arena::{At, Node, NodeId, Nodes};
pub use kinds::NodeKind;
pub use units::{LamBody, Unit};

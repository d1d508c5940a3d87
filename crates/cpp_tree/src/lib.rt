//! The typed program: what elaboration makes of the text of units, and all that later passes read.
//!
//! A unit has a list of nodes, each with the ids of its kids, which are lower, and lists of functions, globals and
//! classes. `specs/Arena.antt` says which typed trees a list of nodes shows, and `specs/Units.antt` what a program
//! shows: functions whose bodies are trees.
//!
//! "C++14" is ISO/IEC 14882:2014, and "the TS" is ISO/IEC TS 19841:2015.
#![tactic(auto)]

pub mod arena;
pub mod below;
pub mod examples;
pub mod faults;
pub mod kinds;
pub mod laws;
pub mod program;
pub mod roles;

pub use arena::{TNode, TNodeId, add_binary, add_leaf, add_node, add_unary};
pub use faults::{ElabFault, IllRule, LimitKind, OverrideRule, UnsafeReason};
pub use kinds::{Builtin, TKind};
pub use program::{
    CellKind, ClassDef, FuncKind, InitCell, Linkage, Program, SlotRec, TFunc, TGlobal, TParam,
    UnitTree,
};

//! The grammar of a C++14 unit: its forms, what derives from each, and what readers of its texts stand on.
//!
//! `specs/Grammar.antt` is the grammar, `specs/Derivations.antt` says what derives. `TypeNames` is what the grammar sees of the
//! tokens of a unit and of their shapes, and `Builder` keeps the trees that a reader of texts makes.
#![tactic(auto)]

mod arena;
mod at;
pub mod builder;
mod classes;
mod groups;
pub mod laws;
pub mod limits;
pub mod names;
pub mod naming;
mod outline;
mod parameters;
mod partners;
pub mod positions;
pub mod read;
mod shaped_choices;
mod shaped_declarations;
mod shaped_declarators;
pub mod shapes;
pub mod terminal;
mod type_words;

pub use builder::{Builder, Parts};
pub use names::TypeNames;
pub use naming::Naming;
pub use positions::{Checkpoint, DeclaredName, OpenBody};
pub use terminal::Terminal;

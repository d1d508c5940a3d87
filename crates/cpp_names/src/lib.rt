// Scopes of names, and what each name stands for (C++14 [basic.scope]).
#![tactic(auto)]

mod entity;
mod fault;
mod scope;
mod scopes;

pub use entity::{Entity, EntityKind};
pub use fault::NameFault;
pub use scopes::Scopes;

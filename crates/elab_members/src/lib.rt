//! What stands in the bodies and initialisers of members, in the completed class; members that are defined outside their
//! class (C++14 9.3, 12.1, 12.4, 12.6.2).
#![tactic(auto)]

pub mod blocks;
pub mod classes;
pub mod constructors;
pub mod declarations;
pub mod defaults;
pub mod defining;
pub mod destructors;
pub mod late;
pub mod methods;
pub mod outside;
pub mod owners;
pub mod parts;
pub mod syntax;
pub mod written;

pub use classes::{class_declared, class_defined};
pub use elab_implicit::with_implied;
pub use outside::member_defined;

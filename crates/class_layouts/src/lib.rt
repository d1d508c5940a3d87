//! How the objects of a class are laid out, found once, where the class is complete, from how those of the classes are that it holds.
#![tactic(auto)]

pub mod layout;
pub mod lists;
pub mod members;

pub use elab_ctx::ClassLayout;
pub use layout::class_layout;
pub use lists::{one_if_complete, push_laid_out, put_laid_out, without};

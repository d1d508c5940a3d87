//! The special members of classes: written, trivial, implicit or not there.
#![tactic(auto)]

mod implicit;
pub mod part_tests;
pub mod places;
pub mod specials;

pub use specials::{has_no_constructor, takes_const, with_copy, with_default, with_destructor};

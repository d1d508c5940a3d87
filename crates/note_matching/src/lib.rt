//! The terms that come in the place of a note's variables where what was computed has the note's form.
//!
//! Nothing is claimed of them: whoever takes them puts them in the place of the variables and compares.
#![tactic(auto)]

mod bindings;
mod form;
mod frames;
mod matching;
mod outcomes;
mod terms;

pub use form::{Form, form_of};
pub use matching::{Numbering, renumbered, terms_between};

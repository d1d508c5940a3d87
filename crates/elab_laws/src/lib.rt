//! Laws of elaboration in the words of the language: which type and category each form of expression has, and what a name
//! stands for.
#![tactic(auto)]

pub mod arithmetic_laws;
pub mod call_laws;
pub mod cast_laws;
pub mod choice_laws;
pub mod naming_laws;
pub mod operator_laws;
pub mod part_laws;
pub mod primary_laws;
pub mod truth_laws;

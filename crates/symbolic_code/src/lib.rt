//! Code with terms as operands: what an instruction does, whatever the words are, beside what the source does.
#![tactic(auto)]

pub mod laws;

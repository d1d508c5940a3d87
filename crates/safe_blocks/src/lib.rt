//! What happens in the blocks of a safe program: the definition (`specs/UnsafeFree.antt`), and how it is shown.
#![tactic(auto)]

pub mod laws;

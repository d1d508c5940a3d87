//! The command `replay`: a written order of threads, interpreted on the sources themselves.
#![tactic(auto)]

mod answers;
mod replaying;
mod steps;

pub use replaying::replay;

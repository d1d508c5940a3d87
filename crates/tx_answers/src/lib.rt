//! What a call of the program answers, and how a command ends: what it decided is written and answered, or it stopped before.
#![tactic(auto)]

mod answer;
mod ends;
mod report;

pub use answer::{Answer, Refusal, Status};
pub use ends::{
    Decision, bad_object, bare, finish, halt, halt_among, halt_given, halt_named, halt_none,
    over_limit, refusal, settle,
};
pub use report::{end_line, end_lines, status_of, trap_name, turn_line};

//! The words of the command line, read as one value: the command with its options.
//!
//! The table of the commands stands in `line`, once, as what `clap` is told; `command` has a value for each, and `read` gives
//! the value that the words say.
#![tactic(auto)]

mod command;
pub mod laws;
mod line;
mod names;
mod reader;

pub use command::{
    Asm, Build, Check, Command, Exec, PickerName, PolicyName, Races, Replay, Run, RunOptions,
};
pub use reader::read;

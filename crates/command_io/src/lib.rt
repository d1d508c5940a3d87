//! What a command does with its host: it reads its files in order, each within its limit, decides, and writes.
//!
//! `specs/Course` defines what a command comes to, whatever it decides: which files were read, what was written, and what stands
//! written where a call of the host failed or memory ran out. A command states what it decides, and no more.
#![tactic(auto)]

mod files;
mod writes;

pub use files::{FileKind, Unread, read_each, read_file, read_given};
pub use writes::{Write, write_all};

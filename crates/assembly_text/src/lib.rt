//! The lines of objects as text: which line each record of an object has, and which line a text begins with.
//!
//! The definitions stand in `specs/`: `Lines` has the line of each record and the text of an object, `Front` what stands at the
//! front of a text.
#![tactic(auto)]

mod key;
pub mod laws;
mod line;
mod making;
mod names;
mod printing;
mod reader;
mod words;

pub use line::{ClassHead, FuncHead, GlobalHead, Line, Record};
pub use printing::print;
pub use reader::{Read, line_at};

//! What is unsafe in a typed program by itself, and which functions it calls: what the safety check goes by.
//!
//! `specs/Unsafe.antt` says which nodes of a typed tree are unsafe and why, and `specs/Volatile.antt` which objects have
//! a volatile part.
//!
//! "C++14" is ISO/IEC 14882:2014, and "the TS" is ISO/IEC TS 19841:2015.
#![tactic(auto)]

pub mod classes;
pub mod definition;
pub mod finding;
pub mod table;
mod volatility;
pub mod walk;

pub use classes::volatile_classes;
pub use definition::contents_of;
pub use finding::{CallSite, Finding};
pub use table::noted;
pub use walk::Contents;

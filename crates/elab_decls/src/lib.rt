//! Declarations at file scope: variables, functions, aliases, enums.
#![tactic(auto)]

pub mod declarations;
pub mod enums;
pub mod functions;
pub mod globals;
pub mod names;

pub use enums::enum_declared;
pub use functions::{agrees, define_function, function_declared};
pub use globals::global_declared;
pub use names::alias_declared;

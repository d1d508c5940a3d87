// What stands in a part of a program.

use cpp_tree::UnsafeReason;
use cpp_types::At;

/// An unsafe node, and one of its reasons.
#[derive(Clone, Copy, Debug, PartialEq, Eq)]
pub struct Finding {
    pub at: At,
    pub reason: UnsafeReason,
}

/// A call by name, or an implicit one, of a function by its index among those of its unit.
#[derive(Clone, Copy, Debug, PartialEq, Eq)]
pub struct CallSite {
    pub at: At,
    pub func: u32,
}

// An expression that an operator or a call takes.

use cpp_tree::TNodeId;
use cpp_tree::below::At;

/// An operand: an expression, and what its place says of it.
#[derive(Clone, Copy)]
pub struct Operand {
    pub id: TNodeId,
    /// Its place, with the parentheses around it.
    pub at: At,
    /// Whether it is an integer literal of value 0 (C++14 4.10).
    pub zero: bool,
}

//! Indices in what is read.

use cpp_ast::NodeId;

/// How much of what is read stands before an index: what comes behind it can be cut off.
#[derive(Clone, Copy, Debug, PartialEq, Eq)]
pub struct Checkpoint {
    /// How many trees.
    pub trees: usize,
}

/// The body of a lambda that is not read yet: the tokens between its braces.
#[derive(Clone, Copy, Debug, PartialEq, Eq)]
pub struct OpenBody {
    /// The lambda.
    pub lam: NodeId,
    /// The token behind its opening brace.
    pub from: u32,
    /// Its closing brace.
    pub to: u32,
}

/// The name that a declarator declares.
#[derive(Clone, Copy, Debug, PartialEq, Eq)]
pub struct DeclaredName {
    /// The index of its first token: that of a destructor is `~`.
    pub first: u32,
    /// The index of its token.
    pub token: u32,
}

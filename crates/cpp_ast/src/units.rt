//! The syntax of a whole unit.

use crate::arena::{NodeId, Nodes};
use cpp_lex::Tokens;

/// The body of a lambda. It is not among the kids of the lambda, so that a lambda can be read before its body is.
#[derive(Clone, Copy, Debug, PartialEq, Eq)]
pub struct LamBody {
    /// The lambda.
    pub lam: NodeId,
    /// Its body, a compound statement.
    pub body: NodeId,
}

/// A unit as it was read: its trees are those that its declarations and bodies reach.
#[derive(Drop)]
pub struct Unit {
    /// The number of the source, as in the positions of its nodes.
    pub source: u32,
    /// The tokens that it was read from.
    pub tokens: Tokens,
    /// The nodes. Those of readings that were given up stay in the list: only a node that `decls` and `bodies` reach, by kids
    /// and by bodies of lambdas, is of the unit.
    pub nodes: Nodes,
    /// Its declarations in the order of the text.
    pub decls: Vec<NodeId>,
    /// The bodies of its lambdas.
    pub bodies: Vec<LamBody>,
}

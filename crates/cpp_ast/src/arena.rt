//! Nodes in a list, whose kids stand before them.

ghost use Rattle.std.specs.Prelude.{◌≡◌, ◌↔◌, ◌+◌, ◌<◌, ◌≤◌, ◌∷◌, ◌++◌, [], length, take, All, IsTrue, IfOk, OnErr, Some, slice_get, true};
ghost use Rattle.cpp_ast.specs.Orders.{are_below};

use crate::kinds::NodeKind;
use std::alloc::{AllocError, Global};
use std::marker::Model;

/// The most nodes that a list holds: their ids fit a `u32`, and so does their number.
pub const MAX_NODES: u32 = 4_294_967_295;

/// A position in a text.
#[derive(Clone, Copy, Debug, PartialEq, Eq)]
pub struct At {
    /// The number of the source.
    pub source: u32,
    /// The offset of a byte in it.
    pub offset: u32,
}

/// The position of a node in a list of nodes.
#[derive(Clone, Copy, Debug, PartialEq, Eq)]
pub struct NodeId(pub u32);

/// A form of the grammar in a text.
#[derive(Debug, Drop)]
pub struct Node {
    pub kind: NodeKind,
    /// Its first byte; of a declaration, the first byte of the declared name.
    pub at: At,
    /// What it is made of, in the order of the table at `NodeKind`.
    pub kids: Vec<NodeId>,
    /// The index of its token in the tokens of the unit, where its kind has one.
    pub token: Option<u32>,
}

/// A list of nodes whose kids have lower ids.
#[derive(Drop)]
pub struct Nodes {
    items: Vec<Node>,
}

impl Model for Nodes {
    ghost use Rattle.std.specs.Prelude.{List};
    ghost use Rattle.cpp_ast.specs.declared.arena.Node.{Node};

    ghost Value = { List Node };

    ghost use Rattle.cpp_ast.specs.Orders.{IsOrdered};

    ghost view = { λ nodes. nodes.items.items };

    ghost invariant = { λ nodes. IsOrdered nodes.items.items };
}

impl Nodes {
    /// No nodes. It takes no memory.
    pub fn new(alloc: Global) -> Nodes
        ensures { result ≡ [] }
    {
        Nodes {
            items: Vec::new(alloc),
        }
    }

    /// How many nodes there are.
    pub fn len(&self) -> u32
        ensures { result ≡ length self.now }
    {
        self.items.len() as u32
    }

    /// Whether there are none.
    pub fn is_empty(&self) -> bool
        ensures { IsTrue result ↔ (length self.now ≡ 0) }
    {
        self.items.is_empty()
    }

    /// Whether no further node may be added.
    pub fn is_full(&self) -> bool
        ensures { IsTrue result ↔ (length self.now ≡ MAX_NODES) }
    {
        self.items.len() == MAX_NODES as usize
    }

    /// The node with an id, whose kids have lower ones.
    pub fn node(&self, id: NodeId) -> &Node
        requires { id.0 < length self.now }
        ensures node { slice_get self.now id.0 ≡ Some result.now }
        ensures lower { are_below id.0 result.now.kids.items ≡ true }
    {
        &self.items[id.0 as usize]
    }

    /// Adds a node behind the others, and answers its id.
    pub fn add(&mut self, node: Node) -> Result<NodeId, AllocError>
        requires capacity { length self.old < MAX_NODES }
        requires kids { are_below (length self.old) node.kids.items ≡ true }
        ensures added { IfOk result (λ id. (id.0 ≡ length self.old) × (self.new ≡ self.old ++ node ∷ [])) }
        ensures memory { OnErr result (self.new ≡ self.old) }
    {
        let id = NodeId(self.items.len() as u32);
        self.items.push(node)?;
        Ok(id)
    }

    /// Takes away the nodes from an index on.
    pub fn truncate(&mut self, len: u32)
        ensures { self.new ≡ take len self.old }
    {
        self.items.truncate(len as usize);
    }
}

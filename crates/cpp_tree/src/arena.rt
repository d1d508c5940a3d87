// Typed nodes in a list.

ghost use Rattle.std.specs.Prelude.{◌≡◌, ◌++◌, ◌∷◌, [], IfOk, OnOk, OnErr};
ghost use Rattle.cpp_layout.specs.cpp_types.Typ.{typ_of};
ghost use Rattle.cpp_tree.specs.Trees.{node, none, one, two};
ghost use Rattle.cpp_tree.specs.Arena.{trees_of, tree_of, tree_at, Adds};

use crate::kinds::TKind;
use cpp_layout::below::{At, Cat, Ty};
use std::alloc::{AllocError, Global};

/// The place of a typed node in a list of nodes.
#[derive(Clone, Copy, Debug, PartialEq, Eq)]
pub struct TNodeId(pub u32);

/// A typed node.
#[derive(Drop)]
pub struct TNode {
    pub kind: TKind,
    /// Of an lvalue the type of the object or function; of an initialiser that of the object; of a statement `void`.
    pub ty: Ty,
    pub cat: Cat,
    /// The first byte of what it stands for in the source.
    pub at: At,
    /// In the order of the table at `TKind`, each with a lower id.
    pub kids: Vec<TNodeId>,
}

/// Adds a node behind the others, and answers its id. Where no id is left, that counts as want of memory.
pub fn add_node(nodes: &mut Vec<TNode>, node: TNode) -> Result<TNodeId, AllocError>
    ensures added { OnOk result (nodes.new.items ≡ nodes.old.items ++ node ∷ []) }
    ensures tree { IfOk result (λ id. Adds (trees_of nodes.old.items) (trees_of nodes.new.items) id (tree_of (trees_of nodes.old.items) node)) }
    ensures memory { OnErr result (nodes.new.items ≡ nodes.old.items) }
{
    let Ok(id) = u32::try_from(nodes.len()) else {
        return Err(AllocError);
    };
    nodes.push(node)?;
    Ok(TNodeId(id))
}

/// Adds a node without kids.
pub fn add_leaf(
    alloc: Global,
    nodes: &mut Vec<TNode>,
    kind: TKind,
    ty: Ty,
    cat: Cat,
    at: At,
) -> Result<TNodeId, AllocError>
    ensures tree { IfOk result (λ id. Adds (trees_of nodes.old.items) (trees_of nodes.new.items) id (node kind (typ_of ty) cat at none)) }
    ensures memory { OnErr result (nodes.new.items ≡ nodes.old.items) }
{
    add_node(
        nodes,
        TNode {
            kind,
            ty,
            cat,
            at,
            kids: Vec::new(alloc),
        },
    )
}

/// Adds a node with one kid.
pub fn add_unary(
    alloc: Global,
    nodes: &mut Vec<TNode>,
    kind: TKind,
    ty: Ty,
    cat: Cat,
    at: At,
    kid: TNodeId,
) -> Result<TNodeId, AllocError>
    ensures tree { IfOk result (λ id. Adds (trees_of nodes.old.items) (trees_of nodes.new.items) id (node kind (typ_of ty) cat at (one (tree_at (trees_of nodes.old.items) kid)))) }
    ensures memory { OnErr result (nodes.new.items ≡ nodes.old.items) }
{
    let mut kids = Vec::new(alloc);
    kids.push(kid)?;
    add_node(
        nodes,
        TNode {
            kind,
            ty,
            cat,
            at,
            kids,
        },
    )
}

/// Adds a node with two kids.
pub fn add_binary(
    alloc: Global,
    nodes: &mut Vec<TNode>,
    kind: TKind,
    ty: Ty,
    cat: Cat,
    at: At,
    first: TNodeId,
    second: TNodeId,
) -> Result<TNodeId, AllocError>
    ensures tree { IfOk result (λ id. Adds (trees_of nodes.old.items) (trees_of nodes.new.items) id (node kind (typ_of ty) cat at (two (tree_at (trees_of nodes.old.items) first) (tree_at (trees_of nodes.old.items) second)))) }
    ensures memory { OnErr result (nodes.new.items ≡ nodes.old.items) }
{
    let mut kids = Vec::new(alloc);
    kids.push(first)?;
    kids.push(second)?;
    add_node(
        nodes,
        TNode {
            kind,
            ty,
            cat,
            at,
            kids,
        },
    )
}

// A tree of one list, behind the nodes of another.

ghost use Rattle.std.specs.Prelude.{◌≡◌, ◌<◌, ◌≤◌, ◌∷◌, ◌++◌, [], List, length, IfOk, OnOk};
ghost use Rattle.cpp_tree.specs.cpp_types.Typ.{typ_of};
ghost use Rattle.cpp_tree.specs.Arena.{trees_of, tree_at};
ghost use Rattle.cpp_tree.specs.Trees.{node as node_of, literal, Trees};
ghost use Rattle.tree_forests.specs.Copies.{IsPut, IsCopied, AreCopied, tree_before, trees_before};

use cpp_tree::below::{At, Cat, Shape, Ty, copy};
use cpp_tree::{TKind, TNode, TNodeId};
use std::alloc::{AllocError, Global};

// Puts a node behind others. Where no id is left, that counts as want of memory.
fn push_node(nodes: &mut Vec<TNode>, node: TNode) -> Result<TNodeId, AllocError>
    ensures { IfOk result (λ r. IsPut nodes.old.items nodes.new.items node r) }
{
    let Ok(id) = u32::try_from(nodes.len()) else {
        return Err(AllocError);
    };
    nodes.push(node)?;
    Ok(TNodeId(id))
}

// A literal, for a node that is not there.
fn put_literal(alloc: Global, nodes: &mut Vec<TNode>) -> Result<TNodeId, AllocError>
    ensures { IfOk result (λ r. IsCopied nodes.old.items nodes.new.items r (literal 0)) }
{
    push_node(
        nodes,
        TNode {
            kind: TKind::Literal { word: 0 },
            ty: Ty {
                shape: Shape::Void,
                is_const: false,
                is_volatile: false,
            },
            cat: Cat::Prvalue,
            at: At {
                source: 0,
                offset: 0,
            },
            kids: Vec::new(alloc),
        },
    )
}

// A node like another, over kids that were copied.
fn put_node(
    alloc: Global,
    nodes: &mut Vec<TNode>,
    node: &TNode,
    kids: Vec<TNodeId>,
) -> Result<TNodeId, AllocError>
    ensures { (old : List TNode) (trees : Trees) → AreCopied old nodes.old.items kids.items trees → IfOk result (λ r. IsCopied old nodes.new.items r (node_of node.now.kind (typ_of node.now.ty) node.now.cat node.now.at trees)) }
{
    let ty = copy(alloc, &node.ty)?;
    push_node(
        nodes,
        TNode {
            kind: node.kind,
            ty,
            cat: node.cat,
            at: node.at,
            kids,
        },
    )
}

// One more id.
fn keep(list: &mut Vec<TNodeId>, id: TNodeId) -> Result<(), AllocError>
    ensures { OnOk result (list.new.items ≡ list.old.items ++ id ∷ []) }
{
    list.push(id)?;
    Ok(())
}

// The node with this id, which shows its tree: its kids are those that stand before it.
fn node_at(nodes: &[TNode], id: TNodeId) -> &TNode
    requires { id.0 < length nodes.now }
    ensures { tree_at (trees_of nodes.now) id ≡ node_of result.now.kind (typ_of result.now.ty) result.now.cat result.now.at (trees_before (trees_of nodes.now) id.0 result.now.kids.items) }
{
    &nodes[id.0 as usize]
}

// A copy of the tree of a node.
#[cycle(copies)]
fn copy_node(
    alloc: Global,
    from: &[TNode],
    id: TNodeId,
    nodes: &mut Vec<TNode>,
) -> Result<TNodeId, AllocError>
    requires { id.0 < length from.now }
    ensures { IfOk result (λ r. IsCopied nodes.old.items nodes.new.items r (tree_at (trees_of from.now) id)) }
{
    let node = node_at(from, id);
    let ids = node.kids.as_slice();
    let kids = copy_all(alloc, from, id.0 as usize, ids, nodes)?;
    put_node(alloc, nodes, node, kids)
}

// A copy of the tree of a node that stands before a place. In the place of another one stands a literal.
#[cycle(copies)]
fn copy_before(
    alloc: Global,
    from: &[TNode],
    place: usize,
    id: TNodeId,
    nodes: &mut Vec<TNode>,
) -> Result<TNodeId, AllocError>
    requires { place ≤ length from.now }
    ensures { IfOk result (λ r. IsCopied nodes.old.items nodes.new.items r (tree_before (trees_of from.now) place id)) }
{
    if (id.0 as usize) < place {
        copy_node(alloc, from, id, nodes)
    } else {
        put_literal(alloc, nodes)
    }
}

// Copies of the trees of kids.
#[cycle(copies)]
fn copy_all(
    alloc: Global,
    from: &[TNode],
    place: usize,
    ids: &[TNodeId],
    nodes: &mut Vec<TNode>,
) -> Result<Vec<TNodeId>, AllocError>
    requires { place ≤ length from.now }
    ensures { IfOk result (λ v. AreCopied nodes.old.items nodes.new.items v.items (trees_before (trees_of from.now) place ids.now)) }
{
    let mut list = Vec::new(alloc);
    for id in ids {
        let kid = copy_before(alloc, from, place, *id, nodes)?;
        keep(&mut list, kid)?;
    }
    Ok(list)
}

/// A copy of the tree that a list of nodes shows at an id, behind the nodes of another list: only what that tree has is
/// added, each node of it anew.
pub fn copy_tree(
    alloc: Global,
    from: &[TNode],
    id: TNodeId,
    nodes: &mut Vec<TNode>,
) -> Result<TNodeId, AllocError>
    ensures { IfOk result (λ r. IsCopied nodes.old.items nodes.new.items r (tree_at (trees_of from.now) id)) }
{
    copy_before(alloc, from, from.len(), id, nodes)
}

// Trees in another list of nodes.

ghost use Rattle.std.specs.Prelude.{◌≡◌, ◌<◌, true, length, IfOk};
ghost use Rattle.elab_stmt.specs.cpp_tree.Arena.{trees_of, tree_at, trees_at, are_below, Adds};
ghost use Rattle.cpp_types.specs.Typ.{typ_of};
ghost use Rattle.elab_stmt.specs.cpp_tree.Trees.{node as node_of};
ghost use Rattle.elab_stmt.specs.elab_ctx.Says.{are_within, AddsAll};

use cpp_types::copy;
use elab_stmt::below::{TNode, TNodeId, add_node, keep, kids_at, node_at};
use std::alloc::{AllocError, Global};

// A node with other kids.
fn copy_node(
    alloc: Global,
    nodes: &mut Vec<TNode>,
    node: &TNode,
    kids: Vec<TNodeId>,
) -> Result<TNodeId, AllocError>
    ensures { IfOk result (λ r. Adds (trees_of nodes.old.items) (trees_of nodes.new.items) r (node_of node.now.kind (typ_of node.now.ty) node.now.cat node.now.at (trees_at (trees_of nodes.old.items) kids.items))) }
{
    let ty = copy(alloc, &node.ty)?;
    add_node(
        nodes,
        TNode {
            kind: node.kind,
            ty,
            cat: node.cat,
            at: node.at,
            kids,
        },
    )
}

/// A tree once more, in another list of nodes. There each node is the kid of one node at most, and only what the tree
/// has is added.
#[cycle(copies)]
pub fn copy_tree(
    alloc: Global,
    from: &Vec<TNode>,
    id: TNodeId,
    nodes: &mut Vec<TNode>,
) -> Result<TNodeId, AllocError>
    requires { id.0 < length (trees_of from.now.items) }
    ensures { IfOk result (λ r. Adds (trees_of nodes.old.items) (trees_of nodes.new.items) r (tree_at (trees_of from.now.items) id)) }
{
    let node = node_at(from, id);
    let ids = kids_at(from, id)?;
    let kids = copy_all(alloc, from, id, ids, nodes)?;
    copy_node(alloc, nodes, node, kids)
}

// The same of several trees, which stand below their parent.
#[cycle(copies)]
fn copy_all(
    alloc: Global,
    from: &Vec<TNode>,
    parent: TNodeId,
    ids: &[TNodeId],
    nodes: &mut Vec<TNode>,
) -> Result<Vec<TNodeId>, AllocError>
    requires within { are_within (length (trees_of from.now.items)) ids.now ≡ true }
    requires lower { are_below parent.0 ids.now ≡ true }
    ensures { IfOk result (λ r. AddsAll (trees_of nodes.old.items) (trees_of nodes.new.items) r.items (trees_at (trees_of from.now.items) ids.now)) }
{
    let mut list = Vec::new(alloc);
    for id in ids {
        let kid = copy_tree(alloc, from, *id, nodes)?;
        keep(&mut list, kid)?;
    }
    Ok(list)
}

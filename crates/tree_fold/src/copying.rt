// Folded trees in another list of nodes.

ghost use Rattle.std.specs.Prelude.{◌≡◌, ◌<◌, ℕ, Bool, List, ◌++◌, ◌∷◌, [], true, length, unwrap_or, IfOk, OnOk};
ghost use Rattle.cpp_tree.specs.cpp_types.Typ.{typ_of};
ghost use Rattle.cpp_tree.specs.cpp_types.declared.ranks.Cat.TheVariants.{Prvalue};
ghost use Rattle.cpp_tree.specs.declared.arena.TNode.{TNode};
ghost use Rattle.cpp_tree.specs.declared.kinds.TKind.TheVariants.{Literal};
ghost use Rattle.cpp_tree.specs.Arena.{IsOrdered, are_below, trees_of, tree_of, tree_at, trees_at, Adds};
ghost use Rattle.cpp_tree.specs.Trees.{node as node_of, none};
ghost use Rattle.tree_fold.specs.Folding.{taken, folded, all_folded};
ghost use Rattle.tree_fold.specs.Sights.{AreSights, Adding};
ghost use Rattle.tree_forests.specs.Copies.{OwnForest};

use crate::sights::{Sight, constant, taken};
use cpp_tree::below::{Cat, copy};
use cpp_tree::{TKind, TNode, TNodeId};
use std::alloc::{AllocError, Global};

/// The node with this id, which shows its tree, and whose kids stand before it.
pub(crate) fn node_at(nodes: &[TNode], id: TNodeId) -> &TNode
    requires ordered { IsOrdered nodes.now }
    requires within { id.0 < length nodes.now }
    ensures tree { tree_at (trees_of nodes.now) id ≡ tree_of (trees_of nodes.now) result.now }
    ensures lower { are_below id.0 result.now.kids.items ≡ true }
    ensures below { are_below (length nodes.now) result.now.kids.items ≡ true }
{
    &nodes[id.0 as usize]
}

// Adds a node, whose kids are the roots of trees that were added. Where no id is left, that counts as want of memory.
fn push_node(nodes: &mut Vec<TNode>, node: TNode) -> Result<TNodeId, AllocError>
    ensures tree { IfOk result (λ r. Adds (trees_of nodes.old.items) (trees_of nodes.new.items) r (tree_of (trees_of nodes.old.items) node)) }
    ensures own { (start : List TNode) → OwnForest start nodes.old.items node.kids.items → IfOk result (λ r. OwnForest start nodes.new.items (r ∷ [])) }
{
    let Ok(id) = u32::try_from(nodes.len()) else {
        return Err(AllocError);
    };
    nodes.push(node)?;
    Ok(TNodeId(id))
}

// A literal in the place of a node.
fn add_literal(
    alloc: Global,
    nodes: &mut Vec<TNode>,
    node: &TNode,
    word: u64,
) -> Result<TNodeId, AllocError>
    ensures tree { IfOk result (λ r. Adds (trees_of nodes.old.items) (trees_of nodes.new.items) r (node_of (Literal word) (typ_of node.now.ty) Prvalue node.now.at none)) }
    ensures own { IfOk result (λ r. OwnForest nodes.old.items nodes.new.items (r ∷ [])) }
{
    let ty = copy(alloc, &node.ty)?;
    push_node(
        nodes,
        TNode {
            kind: TKind::Literal { word },
            ty,
            cat: Cat::Prvalue,
            at: node.at,
            kids: Vec::new(alloc),
        },
    )
}

// A node with other kids.
fn add_copy(
    alloc: Global,
    nodes: &mut Vec<TNode>,
    node: &TNode,
    kids: Vec<TNodeId>,
) -> Result<TNodeId, AllocError>
    ensures tree { IfOk result (λ r. Adds (trees_of nodes.old.items) (trees_of nodes.new.items) r (node_of node.now.kind (typ_of node.now.ty) node.now.cat node.now.at (trees_at (trees_of nodes.old.items) kids.items))) }
    ensures own { (start : List TNode) → OwnForest start nodes.old.items kids.items → IfOk result (λ r. OwnForest start nodes.new.items (r ∷ [])) }
{
    let ty = copy(alloc, &node.ty)?;
    push_node(
        nodes,
        TNode {
            kind: node.kind,
            ty,
            cat: node.cat,
            at: node.at,
            kids,
        },
    )
}

// One more node.
fn keep(list: &mut Vec<TNodeId>, id: TNodeId) -> Result<(), AllocError>
    ensures { OnOk result (list.new.items ≡ list.old.items ++ id ∷ []) }
{
    list.push(id)?;
    Ok(())
}

/// The folded tree of a node, in another list of nodes: only what that tree has is added.
#[cycle(folds)]
pub(crate) fn fold_tree(
    alloc: Global,
    from: &[TNode],
    sights: &[Sight],
    id: TNodeId,
    nodes: &mut Vec<TNode>,
) -> Result<TNodeId, AllocError>
    requires ordered { IsOrdered from.now }
    requires within { id.0 < length from.now }
    requires many { length sights.now ≡ length from.now }
    ensures tree { (volatile : ℕ → Bool) → AreSights volatile (trees_of from.now) sights.now → IfOk result (λ r. Adds (trees_of nodes.old.items) (trees_of nodes.new.items) r (folded volatile (tree_at (trees_of from.now) id))) }
    ensures own { IfOk result (λ r. OwnForest nodes.old.items nodes.new.items (r ∷ [])) }
{
    let node = node_at(from, id);
    match constant(sights, node) {
        Some(word) => add_literal(alloc, nodes, node, word),
        None => fold_rest(alloc, from, sights, id, node, nodes),
    }
}

// The kid that is taken, or the node with its kids folded.
#[cycle(folds)]
fn fold_rest(
    alloc: Global,
    from: &[TNode],
    sights: &[Sight],
    id: TNodeId,
    node: &TNode,
    nodes: &mut Vec<TNode>,
) -> Result<TNodeId, AllocError>
    requires ordered { IsOrdered from.now }
    requires within { id.0 < length from.now }
    requires many { length sights.now ≡ length from.now }
    requires lower { are_below id.0 node.now.kids.items ≡ true }
    requires below { are_below (length from.now) node.now.kids.items ≡ true }
    ensures tree { (volatile : ℕ → Bool) → AreSights volatile (trees_of from.now) sights.now → IfOk result (λ r. Adds (trees_of nodes.old.items) (trees_of nodes.new.items) r (unwrap_or (taken volatile node.now.kind (typ_of node.now.ty) node.now.cat (all_folded volatile (trees_at (trees_of from.now) node.now.kids.items))) (node_of node.now.kind (typ_of node.now.ty) node.now.cat node.now.at (all_folded volatile (trees_at (trees_of from.now) node.now.kids.items))))) }
    ensures own { IfOk result (λ r. OwnForest nodes.old.items nodes.new.items (r ∷ [])) }
{
    match taken(sights, node) {
        Some(kid) => fold_tree(alloc, from, sights, kid, nodes),
        None => fold_node(alloc, from, sights, id, node, nodes),
    }
}

// A node that stays, with its kids folded.
#[cycle(folds)]
fn fold_node(
    alloc: Global,
    from: &[TNode],
    sights: &[Sight],
    id: TNodeId,
    node: &TNode,
    nodes: &mut Vec<TNode>,
) -> Result<TNodeId, AllocError>
    requires ordered { IsOrdered from.now }
    requires within { id.0 < length from.now }
    requires many { length sights.now ≡ length from.now }
    requires lower { are_below id.0 node.now.kids.items ≡ true }
    requires below { are_below (length from.now) node.now.kids.items ≡ true }
    ensures tree { (volatile : ℕ → Bool) → AreSights volatile (trees_of from.now) sights.now → IfOk result (λ r. Adds (trees_of nodes.old.items) (trees_of nodes.new.items) r (node_of node.now.kind (typ_of node.now.ty) node.now.cat node.now.at (all_folded volatile (trees_at (trees_of from.now) node.now.kids.items)))) }
    ensures own { IfOk result (λ r. OwnForest nodes.old.items nodes.new.items (r ∷ [])) }
{
    let ids = node.kids.as_slice();
    let kids = fold_all(alloc, from, sights, id, ids, nodes)?;
    add_copy(alloc, nodes, node, kids)
}

// The folded trees of kids, which stand below their parent.
#[cycle(folds)]
fn fold_all(
    alloc: Global,
    from: &[TNode],
    sights: &[Sight],
    parent: TNodeId,
    ids: &[TNodeId],
    nodes: &mut Vec<TNode>,
) -> Result<Vec<TNodeId>, AllocError>
    requires ordered { IsOrdered from.now }
    requires many { length sights.now ≡ length from.now }
    requires lower { are_below parent.0 ids.now ≡ true }
    requires below { are_below (length from.now) ids.now ≡ true }
    ensures trees { (volatile : ℕ → Bool) → AreSights volatile (trees_of from.now) sights.now → IfOk result (λ r. Adding (trees_of nodes.old.items) (trees_of nodes.new.items) r.items none (all_folded volatile (trees_at (trees_of from.now) ids.now))) }
    ensures own { IfOk result (λ r. OwnForest nodes.old.items nodes.new.items r.items) }
{
    let mut list = Vec::new(alloc);
    for id in ids {
        let kid = fold_tree(alloc, from, sights, *id, nodes)?;
        keep(&mut list, kid)?;
    }
    Ok(list)
}

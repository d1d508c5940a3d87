// What stands in a tree: one walk over its nodes.

ghost use Rattle.std.specs.Prelude.{◌≡◌, ◌<◌, ◌++◌, ◌||◌, ℕ, Bool, true, None, Some, OnOk, fold, length};
ghost use Rattle.cpp_types.specs.Typ.{typ_of};
ghost use Rattle.cpp_tree.specs.declared.arena.TNode.{TNode};
ghost use Rattle.cpp_tree.specs.Arena.{IsOrdered, are_below, trees_of, trees_at, tree_of, tree_at};
ghost use Rattle.tx_unsafe.specs.Volatile.{marked};
ghost use Rattle.tx_unsafe.specs.Unsafe.{is_atomic, called, sites, counted, own_of, own_in, own_in_all, calls_in, calls_in_all};
ghost use Rattle.tx_unsafe.specs.First.{sooner};

use crate::finding::{CallSite, Finding};
use crate::table::{callee, is_atomic_block, with_own};
use cpp_tree::{TNode, TNodeId};
use std::alloc::AllocError;

/// What stands in a part of a program.
#[derive(Drop)]
pub struct Contents {
    /// The first node that is unsafe by itself.
    pub first: Option<Finding>,
    /// The calls of functions of the unit.
    pub calls: Vec<CallSite>,
}

// Adds the call of a function that a node makes.
fn add_call(node: &TNode, contents: &mut Contents) -> Result<(), AllocError>
    ensures first { contents.new.first ≡ contents.old.first }
    ensures calls { OnOk result (contents.new.calls.items ≡ contents.old.calls.items ++ sites (called node.now.kind) node.now.at) }
{
    if let Some(func) = callee(node.kind) {
        contents.calls.push(CallSite { at: node.at, func })?;
    }
    Ok(())
}

// Adds what a node is and does by itself.
fn add_node(
    nodes: &[TNode],
    volatile: &[bool],
    node: &TNode,
    contents: &mut Contents,
) -> Result<(), AllocError>
    requires ordered { IsOrdered nodes.now }
    requires below { are_below (length nodes.now) node.now.kids.items ≡ true }
    ensures first { contents.new.first ≡ fold sooner contents.old.first (own_of (marked volatile.now) (trees_of nodes.now) node.now) }
    ensures calls { OnOk result (contents.new.calls.items ≡ contents.old.calls.items ++ sites (called node.now.kind) node.now.at) }
{
    contents.first = with_own(nodes, volatile, node, contents.first);
    add_call(node, contents)
}

// Adds what a node is and does by itself, where that counts.
fn add_counted(
    nodes: &[TNode],
    volatile: &[bool],
    node: &TNode,
    inside: bool,
    contents: &mut Contents,
) -> Result<(), AllocError>
    requires ordered { IsOrdered nodes.now }
    requires below { are_below (length nodes.now) node.now.kids.items ≡ true }
    ensures first { contents.new.first ≡ fold sooner contents.old.first (counted inside (own_of (marked volatile.now) (trees_of nodes.now) node.now)) }
    ensures calls { OnOk result (contents.new.calls.items ≡ contents.old.calls.items ++ counted inside (sites (called node.now.kind) node.now.at)) }
{
    if inside {
        add_node(nodes, volatile, node, contents)
    } else {
        Ok(())
    }
}

// Whether what stands below a node counts.
fn is_inside(inside: bool, node: &TNode) -> bool
    ensures { result ≡ (inside || is_atomic node.now.kind) }
{
    inside || is_atomic_block(node.kind)
}

/// Adds what stands in the tree of a node: all of it, or only what stands in its atomic blocks.
pub(crate) fn add_tree(
    nodes: &[TNode],
    volatile: &[bool],
    id: TNodeId,
    inside: bool,
    contents: &mut Contents,
) -> Result<(), AllocError>
    requires ordered { IsOrdered nodes.now }
    requires within { id.0 < length nodes.now }
    ensures first { OnOk result (contents.new.first ≡ fold sooner contents.old.first (own_in (marked volatile.now) inside (tree_at (trees_of nodes.now) id))) }
    ensures calls { OnOk result (contents.new.calls.items ≡ contents.old.calls.items ++ calls_in inside (tree_at (trees_of nodes.now) id)) }
{
    let node = &nodes[id.0 as usize];
    add_counted(nodes, volatile, node, inside, contents)?;
    let deeper = is_inside(inside, node);
    for kid in &node.kids {
        add_tree(nodes, volatile, *kid, deeper, contents)?;
    }
    Ok(())
}

// What throws: a `throw`, and what says that it has no value (C++14 15.1 p1).

ghost use Rattle.std.specs.Prelude.{◌≡◌, ◌<◌, length, IfOk};
ghost use Rattle.elab_make.specs.cpp_tree.Trees.{kind_of as kind_in_tree, kids_of};
ghost use Rattle.elab_make.specs.cpp_tree.Arena.{trees_of, tree_at};
ghost use Rattle.elab_make.specs.elab_rules.Values.{same_at};
ghost use Rattle.elab_make.specs.elab_rules.Operators.{is_throw, throws as throws_by, bare_throw as bare_throw_of};
ghost use Rattle.elab_forms.specs.Parts.{throw_or, only_throw};

use elab_make::below::{At, TKind, TNode, TNodeId, kids_at, node_at};
use std::alloc::AllocError;

/// Whether a node is a `throw`, whatever its type says.
pub fn is_throw(nodes: &Vec<TNode>, id: TNodeId) -> bool
    requires { id.0 < length (trees_of nodes.now.items) }
    ensures { result ≡ is_throw (kind_in_tree (tree_at (trees_of nodes.now.items) id)) }
{
    match node_at(nodes, id).kind {
        TKind::Throw | TKind::Rethrow => true,
        _ => false,
    }
}

/// Whether two places are the same.
pub fn same_at(a: At, b: At) -> bool
    ensures { result ≡ same_at a b }
{
    a.source == b.source && a.offset == b.offset
}

// A kid that is a `throw` at a place, else a node.
fn throw_or(nodes: &Vec<TNode>, at: At, kid: TNodeId, id: TNodeId) -> TNodeId
    requires kid { kid.0 < length (trees_of nodes.now.items) }
    requires node { id.0 < length (trees_of nodes.now.items) }
    ensures is { tree_at (trees_of nodes.now.items) result ≡ throw_or at (tree_at (trees_of nodes.now.items) kid) (tree_at (trees_of nodes.now.items) id) }
    ensures within { result.0 < length (trees_of nodes.now.items) }
{
    if is_throw(nodes, kid) && same_at(at, node_at(nodes, kid).at) {
        kid
    } else {
        id
    }
}

// The only kid of a node that is a `throw` at a place, else the node.
fn only_throw(nodes: &Vec<TNode>, at: At, id: TNodeId) -> Result<TNodeId, AllocError>
    requires { id.0 < length (trees_of nodes.now.items) }
    ensures is { IfOk result (λ r. tree_at (trees_of nodes.now.items) r ≡ only_throw at (kids_of (tree_at (trees_of nodes.now.items) id)) (tree_at (trees_of nodes.now.items) id)) }
    ensures within { IfOk result (λ r. r.0 < length (trees_of nodes.now.items)) }
{
    match kids_at(nodes, id)? {
        [kid] => Ok(throw_or(nodes, at, *kid, id)),
        _ => Ok(id),
    }
}

/// The `throw` that an expression is, by itself; else the expression.
pub fn bare_throw(nodes: &Vec<TNode>, id: TNodeId) -> Result<TNodeId, AllocError>
    requires { id.0 < length (trees_of nodes.now.items) }
    ensures is { IfOk result (λ r. tree_at (trees_of nodes.now.items) r ≡ bare_throw_of (tree_at (trees_of nodes.now.items) id)) }
    ensures within { IfOk result (λ r. r.0 < length (trees_of nodes.now.items)) }
{
    let node = node_at(nodes, id);
    match node.kind {
        TKind::Retype => only_throw(nodes, node.at, id),
        _ => Ok(id),
    }
}

/// Whether an expression is a `throw`.
pub fn throws(nodes: &Vec<TNode>, id: TNodeId) -> Result<bool, AllocError>
    requires { id.0 < length (trees_of nodes.now.items) }
    ensures { IfOk result (λ b. b ≡ throws_by (tree_at (trees_of nodes.now.items) id)) }
{
    let bare = bare_throw(nodes, id)?;
    Ok(is_throw(nodes, bare))
}

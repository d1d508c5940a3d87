// A table of the functions that bodies name: each body is gone through once.

ghost use Rattle.std.specs.Prelude.{◌≡◌, ◌<◌, length, true, false, map, fold, replicate, slice_set, IfOk, OnOk};
ghost use Rattle.elab_entry.specs.cpp_tree.Arena.{trees_of, tree_at, trees_at, are_below};
ghost use Rattle.elab_entry.specs.elab_ctx.Says.{are_within};
ghost use Rattle.elab_entry.specs.elab_scopes.States.{body_of};
ghost use Rattle.elab_implicit.specs.Marks.{marked_kind, marked, all_marked, body_marks, table_of};

use crate::places::stands;
use elab_entry::below::{Body, TKind, TNode, TNodeId, kids_at, node_at};
use std::alloc::{AllocError, Global};

/// A function is marked.
pub fn mark(marks: &mut Vec<bool>, func: u32)
    ensures { marks.new.items ≡ slice_set marks.old.items func true }
{
    if let Some(found) = marks.get_mut(func as usize) {
        *found = true;
    }
}

// The function that a node names is marked.
fn mark_kind(kind: TKind, marks: &mut Vec<bool>)
    ensures { marks.new.items ≡ marked_kind kind marks.old.items }
{
    match kind {
        TKind::Function { func }
        | TKind::Call { func }
        | TKind::VirtualCall { func, .. }
        | TKind::Construct { func }
        | TKind::CopyConstruct { func }
        | TKind::Destroy { func, .. } => mark(marks, func),
        _ => {}
    }
}

// The functions that a tree names are marked.
#[cycle(marks)]
fn mark_tree(nodes: &Vec<TNode>, id: TNodeId, marks: &mut Vec<bool>) -> Result<(), AllocError>
    requires { id.0 < length (trees_of nodes.now.items) }
    ensures { OnOk result (marks.new.items ≡ marked (tree_at (trees_of nodes.now.items) id) marks.old.items) }
{
    mark_kind(node_at(nodes, id).kind, marks);
    let kids = kids_at(nodes, id)?;
    mark_all(nodes, id, kids, marks)
}

// The same of several trees, which stand below their parent.
#[cycle(marks)]
fn mark_all(
    nodes: &Vec<TNode>,
    parent: TNodeId,
    ids: &[TNodeId],
    marks: &mut Vec<bool>,
) -> Result<(), AllocError>
    requires within { are_within (length (trees_of nodes.now.items)) ids.now ≡ true }
    requires lower { are_below parent.0 ids.now ≡ true }
    ensures { OnOk result (marks.new.items ≡ all_marked (trees_at (trees_of nodes.now.items) ids.now) marks.old.items) }
{
    for id in ids {
        mark_tree(nodes, *id, marks)?;
    }
    Ok(())
}

/// The functions that a tree of a list of nodes names are marked. A tree that does not stand there counts as want of
/// memory.
pub fn mark_names(
    nodes: &Vec<TNode>,
    tree: TNodeId,
    marks: &mut Vec<bool>,
) -> Result<(), AllocError>
    ensures { OnOk result (marks.new.items ≡ marked (tree_at (trees_of nodes.now.items) tree) marks.old.items) }
{
    stands(nodes, tree)?;
    mark_tree(nodes, tree, marks)
}

// A table of so many functions, of which none is named.
fn no_marks(alloc: Global, count: u32) -> Result<Vec<bool>, AllocError>
    ensures { IfOk result (λ marks. marks.items ≡ replicate count false) }
{
    let mut marks = Vec::new(alloc);
    for _passed in 0..count {
        marks.push(false)?;
    }
    Ok(marks)
}

fn mark_bodies(bodies: &[Body], marks: &mut Vec<bool>) -> Result<(), AllocError>
    ensures { OnOk result (marks.new.items ≡ body_marks (map body_of bodies.now) marks.old.items) }
{
    for body in bodies {
        mark_names(&body.nodes, body.tree, marks)?;
    }
    Ok(())
}

/// The table of so many functions says which of them bodies name.
pub fn table(alloc: Global, bodies: &[Body], count: u32) -> Result<Vec<bool>, AllocError>
    ensures { IfOk result (λ marks. marks.items ≡ table_of count (map body_of bodies.now)) }
{
    let mut marks = no_marks(alloc, count)?;
    mark_bodies(bodies, &mut marks)?;
    Ok(marks)
}

//! What the bodies of a unit refer to.
ghost use Rattle.std.specs.Prelude.{◌≡◌, ◌<◌, ◌||◌, length, option_map, OnOk};
ghost use Rattle.cpp_tree.specs.Arena.{IsOrdered, trees_of, tree_at};
ghost use Rattle.cpp_tree.specs.Units.{unit_of};
ghost use Rattle.unit_entries.specs.Uses.{noted, noted_in, noted_body, noted_bodies, is_atomic as is_atomic_kind};
ghost use Rattle.unit_entries.specs.Marked.{marks_in};

use crate::uses::{Uses, is_set, note_call, note_func, note_global};
use cpp_tree::{TKind, TNodeId, UnitTree};
use std::alloc::AllocError;
use tree_nodes::nodes::node_at;
use tree_nodes::order::is_ordered;

// Notes what a node refers to.
fn note(uses: &mut Uses, kind: TKind, inside: bool)
    ensures { marks_in uses.new ≡ noted inside kind (marks_in uses.old) }
{
    match kind {
        TKind::Call { func }
        | TKind::VirtualCall { func, .. }
        | TKind::Construct { func }
        | TKind::CopyConstruct { func }
        | TKind::Destroy { func, .. } => note_call(uses, func as usize, inside),
        TKind::Function { func } => note_func(uses, func as usize),
        TKind::Global { global } => note_global(uses, global as usize),
        _ => {}
    }
}

// Whether the kids of a node are in an atomic block.
fn is_atomic(kind: TKind) -> bool
    ensures { result ≡ is_atomic_kind kind }
{
    matches!(kind, TKind::Atomic { .. })
}

// Whether what stands below a node is inside.
fn is_inside(inside: bool, kind: TKind) -> bool
    ensures { result ≡ (inside || is_atomic_kind kind) }
{
    inside || is_atomic(kind)
}

// Notes what the tree of a node refers to.
fn note_tree(uses: &mut Uses, unit: &UnitTree, id: TNodeId, inside: bool)
    requires ordered { IsOrdered unit.now.nodes.items }
    requires within { id.0 < length unit.now.nodes.items }
    ensures { marks_in uses.new ≡ noted_in inside (tree_at (trees_of unit.now.nodes.items) id) (marks_in uses.old) }
{
    let node = node_at(unit, id);
    note(uses, node.kind, inside);
    let deeper = is_inside(inside, node.kind);
    for kid in &node.kids {
        note_tree(uses, unit, *kid, deeper);
    }
}

// Notes what a body refers to, if there is one. One that does not stand there counts as want of memory.
fn note_body(
    uses: &mut Uses,
    unit: &UnitTree,
    body: Option<TNodeId>,
    inside: bool,
) -> Result<(), AllocError>
    requires { IsOrdered unit.now.nodes.items }
    ensures { OnOk result (marks_in uses.new ≡ noted_body inside (option_map (tree_at (trees_of unit.now.nodes.items)) body) (marks_in uses.old)) }
{
    if let Some(root) = body {
        if root.0 as usize >= unit.nodes.len() {
            return Err(AllocError);
        }
        note_tree(uses, unit, root, inside);
    }
    Ok(())
}

// Notes what all bodies refer to, where these functions are safe.
fn note_all(uses: &mut Uses, unit: &UnitTree, safe: &[bool]) -> Result<(), AllocError>
    requires { IsOrdered unit.now.nodes.items }
    ensures { OnOk result (marks_in uses.new ≡ noted_bodies safe.now 0 (unit_of unit.now).funcs (marks_in uses.old)) }
{
    for (i, func) in unit.funcs.iter().enumerate() {
        note_body(uses, unit, func.body, is_set(safe, i))?;
    }
    Ok(())
}

/// Notes what the bodies of a unit refer to, where these functions are safe. Nodes whose kids do not stand before them
/// count as want of memory.
pub(crate) fn note_bodies(uses: &mut Uses, unit: &UnitTree, safe: &[bool]) -> Result<(), AllocError>
    ensures { OnOk result (marks_in uses.new ≡ noted_bodies safe.now 0 (unit_of unit.now).funcs (marks_in uses.old)) }
{
    if !is_ordered(&unit.nodes) {
        return Err(AllocError);
    }
    note_all(uses, unit, safe)
}

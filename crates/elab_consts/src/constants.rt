// Integer constant expressions (C++14 5.19), read off typed nodes.

ghost use Rattle.std.specs.Prelude.{◌≡◌, ◌<◌, length, map, true, IfOk};
ghost use Rattle.elab_rules.specs.cpp_tree.Arena.{trees_of, tree_at, trees_at};
ghost use Rattle.elab_rules.specs.cpp_tree.Units.{global_of};
ghost use Rattle.elab_rules.specs.elab_ctx.Says.{are_within};
ghost use Rattle.elab_rules.specs.Constants.{constant};
ghost use Rattle.elab_consts.specs.FromKids.{global_in, only_global};

use crate::rows::{from_one, from_three, from_two, loaded, word_at};
use elab_rules::below::{TGlobal, TKind, TNode, TNodeId, kids_at, node_at};
use std::alloc::AllocError;

// The global that an expression is.
fn global_in(nodes: &Vec<TNode>, id: TNodeId) -> Result<Option<u32>, AllocError>
    requires { id.0 < length (trees_of nodes.now.items) }
    ensures { IfOk result (λ g. g ≡ global_in (tree_at (trees_of nodes.now.items) id)) }
{
    let kids = kids_at(nodes, id)?;
    match node_at(nodes, id).kind {
        TKind::Global { global } => {
            if kids.is_empty() {
                Ok(Some(global))
            } else {
                Ok(None)
            }
        }
        _ => Ok(None),
    }
}

// The global that the only kid is.
fn only_global(nodes: &Vec<TNode>, kids: &[TNodeId]) -> Result<Option<u32>, AllocError>
    requires { are_within (length (trees_of nodes.now.items)) kids.now ≡ true }
    ensures { IfOk result (λ g. g ≡ only_global (trees_at (trees_of nodes.now.items) kids.now)) }
{
    if kids.len() == 1 {
        global_in(nodes, kids[0])
    } else {
        Ok(None)
    }
}

/// The word of an integer constant expression; `None` where the expression is none.
pub fn constant(
    globals: &Vec<TGlobal>,
    nodes: &Vec<TNode>,
    id: TNodeId,
) -> Result<Option<u64>, AllocError>
    requires { id.0 < length (trees_of nodes.now.items) }
    ensures { IfOk result (λ x. x ≡ constant (map global_of globals.now.items) (tree_at (trees_of nodes.now.items) id)) }
{
    let node = node_at(nodes, id);
    let kids = kids_at(nodes, id)?;
    if let TKind::Load { kind, volatile } = node.kind {
        let global = only_global(nodes, kids)?;
        return Ok(loaded(globals, kind, volatile, global));
    }
    if kids.len() == 1 {
        let kid = constant(globals, nodes, kids[0])?;
        return Ok(from_one(node.kind, node.cat, kid));
    }
    if kids.len() == 2 {
        let left = constant(globals, nodes, kids[0])?;
        let right = constant(globals, nodes, kids[1])?;
        return Ok(from_two(node.kind, node.cat, left, right));
    }
    if kids.len() == 3 {
        let test = constant(globals, nodes, kids[0])?;
        let yes = constant(globals, nodes, kids[1])?;
        let no = constant(globals, nodes, kids[2])?;
        return Ok(from_three(node.kind, node.cat, test, yes, no));
    }
    Ok(word_at(node.kind))
}

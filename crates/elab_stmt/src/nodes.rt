// Nodes of statements with many parts.

ghost use Rattle.std.specs.Prelude.{◌≡◌, ◌<◌, ◌∷◌, true, length, IfOk};
ghost use Rattle.elab_locals.specs.cpp_types.Typ.{typ_of};
ghost use Rattle.elab_locals.specs.cpp_tree.declared.kinds.TKind.TheVariants.{Switch, Try};
ghost use Rattle.elab_locals.specs.cpp_tree.Trees.{more, none};
ghost use Rattle.elab_locals.specs.cpp_tree.Arena.{trees_of, tree_at, trees_at, Adds};
ghost use Rattle.elab_locals.specs.elab_ctx.Says.{are_within};
ghost use Rattle.elab_locals.specs.elab_rules.Statements.{statement as statement_of, block as block_of, handler_node as handler_node_of};
ghost use Rattle.elab_stmt.specs.Parts.{for_loop};

use elab_locals::below::{
    At, Cat, Caught, TKind, TNode, TNodeId, add_node, block, keep, keep_all, statement,
    ternary_statement,
};
use std::alloc::{AllocError, Global};

// A node and others behind it.
fn with_first(alloc: Global, first: TNodeId, others: &[TNodeId]) -> Result<Vec<TNodeId>, AllocError>
    ensures { IfOk result (λ v. v.items ≡ first ∷ others.now) }
{
    let mut kids = Vec::new(alloc);
    keep(&mut kids, first)?;
    keep_all(&mut kids, others)?;
    Ok(kids)
}

/// A block without statements.
pub fn empty_block(alloc: Global, nodes: &mut Vec<TNode>, at: At) -> Result<TNodeId, AllocError>
    ensures { IfOk result (λ r. Adds (trees_of nodes.old.items) (trees_of nodes.new.items) r (block_of at none)) }
{
    block(nodes, at, Vec::new(alloc))
}

/// A `switch` on a value.
pub fn switch_node(
    alloc: Global,
    nodes: &mut Vec<TNode>,
    at: At,
    value: TNodeId,
    list: &[TNodeId],
) -> Result<TNodeId, AllocError>
    ensures { IfOk result (λ r. Adds (trees_of nodes.old.items) (trees_of nodes.new.items) r (statement_of Switch at (more (tree_at (trees_of nodes.old.items) value) (trees_at (trees_of nodes.old.items) list.now)))) }
{
    let kids = with_first(alloc, value, list)?;
    statement(nodes, TKind::Switch, at, kids)
}

/// What is tried, with its handlers.
pub fn try_node(
    alloc: Global,
    nodes: &mut Vec<TNode>,
    at: At,
    inside: TNodeId,
    list: &[TNodeId],
) -> Result<TNodeId, AllocError>
    ensures { IfOk result (λ r. Adds (trees_of nodes.old.items) (trees_of nodes.new.items) r (statement_of Try at (more (tree_at (trees_of nodes.old.items) inside) (trees_at (trees_of nodes.old.items) list.now)))) }
{
    let kids = with_first(alloc, inside, list)?;
    statement(nodes, TKind::Try, at, kids)
}

/// A handler of what is caught.
pub fn handler_node(
    alloc: Global,
    nodes: &mut Vec<TNode>,
    at: At,
    found: Caught,
    inside: TNodeId,
) -> Result<TNodeId, AllocError>
    ensures { IfOk result (λ r. Adds (trees_of nodes.old.items) (trees_of nodes.new.items) r (handler_node_of at found.place (typ_of found.ty) (tree_at (trees_of nodes.old.items) inside) (trees_at (trees_of nodes.old.items) found.fields.items))) }
{
    let kids = with_first(alloc, inside, &found.fields)?;
    add_node(
        nodes,
        TNode {
            kind: TKind::Handler { place: found.place },
            ty: found.ty,
            cat: Cat::Prvalue,
            at,
            kids,
        },
    )
}

/// A `for`, behind what is done first.
pub fn for_node(
    alloc: Global,
    nodes: &mut Vec<TNode>,
    at: At,
    first: Vec<TNodeId>,
    test: TNodeId,
    inside: TNodeId,
    step: TNodeId,
) -> Result<TNodeId, AllocError>
    requires { are_within (length (trees_of nodes.old.items)) first.items ≡ true }
    ensures { IfOk result (λ r. Adds (trees_of nodes.old.items) (trees_of nodes.new.items) r (for_loop at (trees_at (trees_of nodes.old.items) first.items) (tree_at (trees_of nodes.old.items) test) (tree_at (trees_of nodes.old.items) inside) (tree_at (trees_of nodes.old.items) step))) }
{
    let repeated = ternary_statement(
        alloc,
        nodes,
        TKind::Loop { test_first: true },
        at,
        test,
        inside,
        step,
    )?;
    let mut kids = first;
    keep(&mut kids, repeated)?;
    block(nodes, at, kids)
}

// Nodes of statements.

ghost use Rattle.std.specs.Prelude.{IfOk};
ghost use Rattle.elab_expr.specs.cpp_tree.declared.kinds.TKind.TheVariants.{Block};
ghost use Rattle.elab_expr.specs.cpp_tree.Trees.{none, one, two, three};
ghost use Rattle.elab_expr.specs.cpp_tree.Arena.{trees_of, tree_at, trees_at, Adds};
ghost use Rattle.elab_expr.specs.elab_rules.Statements.{statement as statement_of, block as block_of};

use elab_expr::below::{
    At, Cat, Shape, TKind, TNode, TNodeId, add_binary, add_leaf, add_node, add_three, add_unary,
    plain_type,
};
use std::alloc::{AllocError, Global};

/// A statement without parts.
pub fn leaf_statement(
    alloc: Global,
    nodes: &mut Vec<TNode>,
    kind: TKind,
    at: At,
) -> Result<TNodeId, AllocError>
    ensures { IfOk result (λ r. Adds (trees_of nodes.old.items) (trees_of nodes.new.items) r (statement_of kind at none)) }
{
    add_leaf(
        alloc,
        nodes,
        kind,
        plain_type(Shape::Void),
        Cat::Prvalue,
        at,
    )
}

/// A statement with one part.
pub fn unary_statement(
    alloc: Global,
    nodes: &mut Vec<TNode>,
    kind: TKind,
    at: At,
    kid: TNodeId,
) -> Result<TNodeId, AllocError>
    ensures { IfOk result (λ r. Adds (trees_of nodes.old.items) (trees_of nodes.new.items) r (statement_of kind at (one (tree_at (trees_of nodes.old.items) kid)))) }
{
    add_unary(
        alloc,
        nodes,
        kind,
        plain_type(Shape::Void),
        Cat::Prvalue,
        at,
        kid,
    )
}

/// A statement with two parts.
pub fn binary_statement(
    alloc: Global,
    nodes: &mut Vec<TNode>,
    kind: TKind,
    at: At,
    first: TNodeId,
    second: TNodeId,
) -> Result<TNodeId, AllocError>
    ensures { IfOk result (λ r. Adds (trees_of nodes.old.items) (trees_of nodes.new.items) r (statement_of kind at (two (tree_at (trees_of nodes.old.items) first) (tree_at (trees_of nodes.old.items) second)))) }
{
    add_binary(
        alloc,
        nodes,
        kind,
        plain_type(Shape::Void),
        Cat::Prvalue,
        at,
        first,
        second,
    )
}

/// A statement with three parts.
pub fn ternary_statement(
    alloc: Global,
    nodes: &mut Vec<TNode>,
    kind: TKind,
    at: At,
    first: TNodeId,
    second: TNodeId,
    third: TNodeId,
) -> Result<TNodeId, AllocError>
    ensures { IfOk result (λ r. Adds (trees_of nodes.old.items) (trees_of nodes.new.items) r (statement_of kind at (three (tree_at (trees_of nodes.old.items) first) (tree_at (trees_of nodes.old.items) second) (tree_at (trees_of nodes.old.items) third)))) }
{
    add_three(
        alloc,
        nodes,
        kind,
        plain_type(Shape::Void),
        Cat::Prvalue,
        at,
        first,
        second,
        third,
    )
}

/// A statement with any number of parts.
pub fn statement(
    nodes: &mut Vec<TNode>,
    kind: TKind,
    at: At,
    kids: Vec<TNodeId>,
) -> Result<TNodeId, AllocError>
    ensures { IfOk result (λ r. Adds (trees_of nodes.old.items) (trees_of nodes.new.items) r (statement_of kind at (trees_at (trees_of nodes.old.items) kids.items))) }
{
    add_node(
        nodes,
        TNode {
            kind,
            ty: plain_type(Shape::Void),
            cat: Cat::Prvalue,
            at,
            kids,
        },
    )
}

/// Statements as one.
pub fn block(nodes: &mut Vec<TNode>, at: At, kids: Vec<TNodeId>) -> Result<TNodeId, AllocError>
    ensures { IfOk result (λ r. Adds (trees_of nodes.old.items) (trees_of nodes.new.items) r (block_of at (trees_at (trees_of nodes.old.items) kids.items))) }
{
    statement(nodes, TKind::Block { subobjects: false }, at, kids)
}

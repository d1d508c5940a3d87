// Full-expressions (C++14 1.9 p10, 12.2): their lambdas before them, their temporaries until their end.

ghost use Rattle.std.specs.Prelude.{◌≡◌, ◌<◌, List, length, IfOk, true};
ghost use Rattle.elab_expr.specs.cpp_lex.Tokens.{lexemes_of};
ghost use Rattle.elab_expr.specs.cpp_ast.Orders.{are_below};
ghost use Rattle.elab_expr.specs.cpp_tree.Trees.{Tree};
ghost use Rattle.elab_expr.specs.cpp_tree.Arena.{trees_of, tree_at, trees_at, Adds};
ghost use Rattle.elab_expr.specs.elab_rules.Statements.{is_temporary_with as is_temporary_with_of, holds_temporary as holds_temporary_of, throws_object as throws_object_of, whole_of as whole_of_tree, full as full_of, full_operand as full_operand_of, all_lambdas as all_lambdas_of};
ghost use Rattle.elab_expr.specs.elab_types.Syntax.{syntax_of, tree_at as syntax_at, trees_at as syntaxes_at};
ghost use Rattle.elab_scopes.specs.States.{state_of};
ghost use Rattle.elab_scopes.specs.Wholes.{without_object as without_object_of};
ghost use Rattle.elab_scopes.specs.Says.{Changes, Fulls};

use crate::lambdas::MakeLambdas;
use crate::reading::operand;
use crate::state::State;
use elab_expr::below::{
    At, Cat, ElabFault, NodeId, Nodes, Operand, Shape, TKind, TNode, TNodeId, Tokens, add_unary,
    copy, elab_names_is_class_type as is_class_type, kids_at, node_at, plain_type,
};
use std::alloc::{AllocError, Global};

// Whether a node is a temporary that is destroyed.
fn is_temporary(kind: TKind, kids: &[TNodeId]) -> bool
    ensures { (trees : List Tree) → result ≡ is_temporary_with_of kind (trees_at trees kids.now) }
{
    match kind {
        TKind::Materialize { place: _, argument } => {
            if argument {
                return false;
            }
            kids.len() > 1
        }
        _ => false,
    }
}

/// Whether a temporary with a destructor is in a tree.
pub fn holds_temporary(nodes: &Vec<TNode>, id: TNodeId) -> Result<bool, AllocError>
    requires { id.0 < length (trees_of nodes.now.items) }
    ensures { IfOk result (λ b. b ≡ holds_temporary_of (tree_at (trees_of nodes.now.items) id)) }
{
    let kids = kids_at(nodes, id)?;
    if is_temporary(node_at(nodes, id).kind, kids) {
        return Ok(true);
    }
    for kid in kids {
        if holds_temporary(nodes, *kid)? {
            return Ok(true);
        }
    }
    Ok(false)
}

// Whether an expression is a `throw` of an object, which makes none.
fn throws_object(nodes: &Vec<TNode>, id: TNodeId) -> bool
    requires { id.0 < length (trees_of nodes.now.items) }
    ensures { result ≡ throws_object_of (tree_at (trees_of nodes.now.items) id) }
{
    let node = node_at(nodes, id);
    match node.kind {
        TKind::Throw | TKind::Rethrow => is_class_type(&node.ty),
        _ => false,
    }
}

// A `throw` of an object as an expression without a value; every other expression as it is.
fn without_object(alloc: Global, nodes: &mut Vec<TNode>, id: TNodeId) -> Result<TNodeId, AllocError>
    requires { id.0 < length (trees_of nodes.old.items) }
    ensures { IfOk result (λ r. Adds (trees_of nodes.old.items) (trees_of nodes.new.items) r (without_object_of (tree_at (trees_of nodes.old.items) id))) }
{
    if !throws_object(nodes, id) {
        return Ok(id);
    }
    let at = node_at(nodes, id).at;
    add_unary(
        alloc,
        nodes,
        TKind::Retype,
        plain_type(Shape::Void),
        Cat::Prvalue,
        at,
        id,
    )
}

// An expression at whose end temporaries are destroyed.
fn whole_of(
    alloc: Global,
    nodes: &mut Vec<TNode>,
    at: At,
    id: TNodeId,
) -> Result<TNodeId, AllocError>
    requires { id.0 < length (trees_of nodes.old.items) }
    ensures { IfOk result (λ r. Adds (trees_of nodes.old.items) (trees_of nodes.new.items) r (whole_of_tree at (tree_at (trees_of nodes.old.items) id))) }
{
    let node = node_at(nodes, id);
    let cat = node.cat;
    let ty = copy(alloc, &node.ty)?;
    add_unary(alloc, nodes, TKind::FullExpression, ty, cat, at, id)
}

/// An expression or an initialiser as a whole.
pub fn full(
    alloc: Global,
    nodes: &mut Vec<TNode>,
    at: At,
    id: TNodeId,
) -> Result<TNodeId, AllocError>
    requires { id.0 < length (trees_of nodes.old.items) }
    ensures { IfOk result (λ r. Adds (trees_of nodes.old.items) (trees_of nodes.new.items) r (full_of at (tree_at (trees_of nodes.old.items) id))) }
{
    if !holds_temporary(nodes, id)? {
        return Ok(id);
    }
    let inner = without_object(alloc, nodes, id)?;
    whole_of(alloc, nodes, at, inner)
}

/// An expression that is no part of another, behind its lambdas.
pub fn full_operand<L: MakeLambdas>(
    alloc: Global,
    lams: &L,
    tokens: &Tokens,
    nodes: &Nodes,
    id: NodeId,
    st: &mut State,
) -> Result<Operand, ElabFault>
    requires { id.0 < length nodes.now }
    ensures { Fulls st.old st.new result (full_operand_of (L.lambdas lams.now) (lexemes_of tokens.now) (state_of st.old) (syntax_at (syntax_of nodes.now) id)) }
{
    lams.make(alloc, tokens, nodes, id, st)?;
    let o = operand(alloc, &st.env, tokens, nodes, id, &mut st.work)?;
    st.env.closures.clear();
    Ok(o)
}

/// The lambdas of each of some expressions, which are kids of a node.
pub fn all_lambdas<L: MakeLambdas>(
    alloc: Global,
    lams: &L,
    tokens: &Tokens,
    nodes: &Nodes,
    parent: NodeId,
    ids: &[NodeId],
    st: &mut State,
) -> Result<(), ElabFault>
    requires within { parent.0 < length nodes.now }
    requires lower { are_below parent.0 ids.now ≡ true }
    ensures { Changes st.old st.new result (all_lambdas_of (L.lambdas lams.now) (lexemes_of tokens.now) (state_of st.old) (syntaxes_at (syntax_of nodes.now) ids.now)) }
{
    for id in ids {
        lams.make(alloc, tokens, nodes, *id, st)?;
    }
    Ok(())
}

// Expressions, type-ids and declarators: what stands in a form first, from left to right, then the form itself.

ghost use Rattle.std.specs.Prelude.{◌≡◌, ◌<◌, length, map, true, IfOk};
ghost use Rattle.elab_rows.specs.cpp_lex.Tokens.{lexemes_of};
ghost use Rattle.elab_rows.specs.cpp_ast.Orders.{are_below};
ghost use Rattle.elab_rows.specs.cpp_ast.Trees.{kind_of};
ghost use Rattle.elab_rows.specs.cpp_ast.declared.kinds.NodeKind.TheVariants as syntax;
ghost use Rattle.elab_rows.specs.cpp_types.Typ.{typ_of};
ghost use Rattle.elab_rows.specs.cpp_tree.Arena.{trees_of};
ghost use Rattle.elab_rows.specs.elab_ctx.Ctx.{ctx_of, work_of, closure_of};
ghost use Rattle.elab_rows.specs.elab_ctx.Steps.{and_then};
ghost use Rattle.elab_rows.specs.elab_rules.Expressions.{expression_with, operands_with, type_id_with, chosen_operand, written_type as written_type_of};
ghost use Rattle.elab_rows.specs.elab_types.Shown.{Says};
ghost use Rattle.elab_rows.specs.elab_types.Syntax.{syntax_of, tree_at, trees_at};
ghost use Rattle.elab_rows.specs.Typed.{Types, TypesAll};
ghost use Rattle.elab_expr.specs.Forms.{is_over_operands as is_over_operands_of, is_cast};
ghost use Rattle.elab_expr.specs.Unmoved.{Unmoved};

use crate::declarators::{specified, type_id};
use crate::forms::{is_over_operands, keep_operand};
use elab_growth::cut_back;
use elab_rows::below::{
    At, Closure, ElabFault, Env, IllRule, Kids, NodeId, NodeKind, Nodes, Operand, Tokens, Ty, Work,
    elab_types_node_at as node_at, first_kid, ill, kids_of, no_specifiers,
    node_at as typed_node_at, place, spelling,
};
use elab_rows::{
    call_row, cast_row, chosen_row, closure_row, functional_row, leaf_row, qualified_row, row,
    sized_row, written_specifiers, written_type,
};
use std::alloc::Global;
use std::mem;

/// The typed form of an expression.
#[cycle(expressions)]
pub fn expression(
    alloc: Global,
    env: &Env,
    closures: &[Closure],
    tokens: &Tokens,
    nodes: &Nodes,
    id: NodeId,
    work: &mut Work,
) -> Result<Operand, ElabFault>
    requires within { id.0 < length nodes.now }
    ensures { Types (trees_of work.old.nodes.items) (trees_of work.new.nodes.items) (work_of work.new) result (expression_with (lexemes_of tokens.now) (ctx_of env.now) (map closure_of closures.now) (work_of work.old) (tree_at (syntax_of nodes.now) id)) }
{
    let kind = node_at(nodes, id).kind;
    if is_over_operands(kind) {
        return over_operands(alloc, env, closures, tokens, nodes, id, work);
    }
    match kind {
        NodeKind::ParenthesizedExpression => parenthesized(
            alloc, env, closures, tokens, nodes, id, work,
        ),
        NodeKind::FunctionCall => called(alloc, env, closures, tokens, nodes, id, work),
        NodeKind::FunctionalCast => functional_cast(alloc, env, closures, tokens, nodes, id, work),
        NodeKind::StaticCast => casted(alloc, env, closures, tokens, nodes, id, work),
        NodeKind::CastExpression => casted(alloc, env, closures, tokens, nodes, id, work),
        NodeKind::SizeofExpression => sized_operand(alloc, env, closures, tokens, nodes, id, work),
        NodeKind::SizeofType => sized_type(alloc, env, closures, tokens, nodes, id, work),
        NodeKind::Lambda => lambda(alloc, env, closures, tokens, nodes, id, work),
        NodeKind::QualifiedId => qualified_id(alloc, env, closures, tokens, nodes, id, work),
        _ => Err(ElabFault::Memory),
    }
}

/// The same, where functions of a name are one function.
#[cycle(expressions)]
pub fn chosen_expression(
    alloc: Global,
    env: &Env,
    closures: &[Closure],
    tokens: &Tokens,
    nodes: &Nodes,
    id: NodeId,
    work: &mut Work,
) -> Result<Operand, ElabFault>
    requires within { id.0 < length nodes.now }
    ensures { Types (trees_of work.old.nodes.items) (trees_of work.new.nodes.items) (work_of work.new) result (and_then (expression_with (lexemes_of tokens.now) (ctx_of env.now) (map closure_of closures.now) (work_of work.old) (tree_at (syntax_of nodes.now) id)) (chosen_operand (ctx_of env.now))) }
{
    let found = expression(alloc, env, closures, tokens, nodes, id, work)?;
    chosen_row(alloc, env, found, work)
}

/// Several expressions, from left to right, each as an operand. They stand below the node of which they are kids.
#[cycle(expressions)]
pub fn operands(
    alloc: Global,
    env: &Env,
    closures: &[Closure],
    tokens: &Tokens,
    nodes: &Nodes,
    parent: NodeId,
    ids: &[NodeId],
    work: &mut Work,
) -> Result<Vec<Operand>, ElabFault>
    requires within { parent.0 < length nodes.now }
    requires lower { are_below parent.0 ids.now ≡ true }
    ensures { TypesAll (trees_of work.old.nodes.items) (trees_of work.new.nodes.items) (work_of work.new) result (operands_with (lexemes_of tokens.now) (ctx_of env.now) (map closure_of closures.now) (work_of work.old) (trees_at (syntax_of nodes.now) ids.now)) }
{
    let mut found = Vec::new(alloc);
    for id in ids {
        let operand = chosen_expression(alloc, env, closures, tokens, nodes, *id, work)?;
        keep_operand(&mut found, operand)?;
    }
    Ok(found)
}

// A leaf, or a form whose kids are all operands.
#[cycle(expressions)]
fn over_operands(
    alloc: Global,
    env: &Env,
    closures: &[Closure],
    tokens: &Tokens,
    nodes: &Nodes,
    id: NodeId,
    work: &mut Work,
) -> Result<Operand, ElabFault>
    requires within { id.0 < length nodes.now }
    requires over { is_over_operands_of (kind_of (tree_at (syntax_of nodes.now) id)) ≡ true }
    ensures { Types (trees_of work.old.nodes.items) (trees_of work.new.nodes.items) (work_of work.new) result (expression_with (lexemes_of tokens.now) (ctx_of env.now) (map closure_of closures.now) (work_of work.old) (tree_at (syntax_of nodes.now) id)) }
{
    let node = node_at(nodes, id);
    let at = place(node.at);
    let Some(token) = node.token else {
        return Err(ill(at, IllRule::OutOfProfile));
    };
    if node.kids.is_empty() {
        return leaf_row(alloc, env, tokens, node.kind, at, token, work);
    }
    let found = operands(alloc, env, closures, tokens, nodes, id, &node.kids, work)?;
    row(alloc, env, tokens, node.kind, at, token, &found, work)
}

// `(e)`
#[cycle(expressions)]
fn parenthesized(
    alloc: Global,
    env: &Env,
    closures: &[Closure],
    tokens: &Tokens,
    nodes: &Nodes,
    id: NodeId,
    work: &mut Work,
) -> Result<Operand, ElabFault>
    requires within { id.0 < length nodes.now }
    requires kind { kind_of (tree_at (syntax_of nodes.now) id) ≡ syntax.ParenthesizedExpression }
    ensures { Types (trees_of work.old.nodes.items) (trees_of work.new.nodes.items) (work_of work.new) result (expression_with (lexemes_of tokens.now) (ctx_of env.now) (map closure_of closures.now) (work_of work.old) (tree_at (syntax_of nodes.now) id)) }
{
    let node = node_at(nodes, id);
    let Kids::One(kid) = kids_of(&node.kids) else {
        return Err(ElabFault::Memory);
    };
    let inner = expression(alloc, env, closures, tokens, nodes, kid, work)?;
    Ok(Operand {
        id: inner.id,
        at: place(node.at),
        zero: inner.zero,
    })
}

// `f(e, ..)`
#[cycle(expressions)]
fn called(
    alloc: Global,
    env: &Env,
    closures: &[Closure],
    tokens: &Tokens,
    nodes: &Nodes,
    id: NodeId,
    work: &mut Work,
) -> Result<Operand, ElabFault>
    requires within { id.0 < length nodes.now }
    requires kind { kind_of (tree_at (syntax_of nodes.now) id) ≡ syntax.FunctionCall }
    ensures { Types (trees_of work.old.nodes.items) (trees_of work.new.nodes.items) (work_of work.new) result (expression_with (lexemes_of tokens.now) (ctx_of env.now) (map closure_of closures.now) (work_of work.old) (tree_at (syntax_of nodes.now) id)) }
{
    let node = node_at(nodes, id);
    let Some(kid) = first_kid(&node.kids) else {
        return Err(ElabFault::Memory);
    };
    let callee = expression(alloc, env, closures, tokens, nodes, kid, work)?;
    let arguments = operands(
        alloc,
        env,
        closures,
        tokens,
        nodes,
        id,
        &node.kids[1..],
        work,
    )?;
    call_row(alloc, env, place(node.at), callee, &arguments, work)
}

// `T(e, ..)`
#[cycle(expressions)]
fn functional_cast(
    alloc: Global,
    env: &Env,
    closures: &[Closure],
    tokens: &Tokens,
    nodes: &Nodes,
    id: NodeId,
    work: &mut Work,
) -> Result<Operand, ElabFault>
    requires within { id.0 < length nodes.now }
    requires kind { kind_of (tree_at (syntax_of nodes.now) id) ≡ syntax.FunctionalCast }
    ensures { Types (trees_of work.old.nodes.items) (trees_of work.new.nodes.items) (work_of work.new) result (expression_with (lexemes_of tokens.now) (ctx_of env.now) (map closure_of closures.now) (work_of work.old) (tree_at (syntax_of nodes.now) id)) }
{
    let node = node_at(nodes, id);
    let at = place(node.at);
    let Some(kid) = first_kid(&node.kids) else {
        return Err(ElabFault::Memory);
    };
    let base = specified(
        alloc,
        env,
        closures,
        tokens,
        nodes,
        no_specifiers(alloc),
        kid,
        work,
    )?;
    let ty = written_specifiers(alloc, tokens, at, &base)?;
    let values = operands(
        alloc,
        env,
        closures,
        tokens,
        nodes,
        id,
        &node.kids[1..],
        work,
    )?;
    functional_row(alloc, env, at, &ty, &values, work)
}

// The type that a type-id names, in a form at a place.
#[cycle(expressions)]
fn written_type_id(
    alloc: Global,
    env: &Env,
    closures: &[Closure],
    tokens: &Tokens,
    nodes: &Nodes,
    at: At,
    id: NodeId,
    work: &mut Work,
) -> Result<Ty, ElabFault>
    requires within { id.0 < length nodes.now }
    ensures says { Says typ_of result (and_then (type_id_with (lexemes_of tokens.now) (ctx_of env.now) (map closure_of closures.now) (work_of work.old) (tree_at (syntax_of nodes.now) id)) (written_type_of at)) }
    ensures kept { IfOk result (λ x. Unmoved work.old work.new) }
{
    let ty = type_id(alloc, env, closures, tokens, nodes, id, work)?;
    written_type(at, ty)
}

// `static_cast<T>(e)` and `(T)e`
#[cycle(expressions)]
fn casted(
    alloc: Global,
    env: &Env,
    closures: &[Closure],
    tokens: &Tokens,
    nodes: &Nodes,
    id: NodeId,
    work: &mut Work,
) -> Result<Operand, ElabFault>
    requires within { id.0 < length nodes.now }
    requires kind { is_cast (kind_of (tree_at (syntax_of nodes.now) id)) ≡ true }
    ensures { Types (trees_of work.old.nodes.items) (trees_of work.new.nodes.items) (work_of work.new) result (expression_with (lexemes_of tokens.now) (ctx_of env.now) (map closure_of closures.now) (work_of work.old) (tree_at (syntax_of nodes.now) id)) }
{
    let node = node_at(nodes, id);
    let at = place(node.at);
    let Kids::Two(first, second) = kids_of(&node.kids) else {
        return Err(ElabFault::Memory);
    };
    let ty = written_type_id(alloc, env, closures, tokens, nodes, at, first, work)?;
    let value = chosen_expression(alloc, env, closures, tokens, nodes, second, work)?;
    cast_row(alloc, env, at, &ty, value, work)
}

// `sizeof e`: what is made for the operand is cut off again, and no lambda stands in it.
#[cycle(expressions)]
fn sized_operand(
    alloc: Global,
    env: &Env,
    closures: &[Closure],
    tokens: &Tokens,
    nodes: &Nodes,
    id: NodeId,
    work: &mut Work,
) -> Result<Operand, ElabFault>
    requires within { id.0 < length nodes.now }
    requires kind { kind_of (tree_at (syntax_of nodes.now) id) ≡ syntax.SizeofExpression }
    ensures { Types (trees_of work.old.nodes.items) (trees_of work.new.nodes.items) (work_of work.new) result (expression_with (lexemes_of tokens.now) (ctx_of env.now) (map closure_of closures.now) (work_of work.old) (tree_at (syntax_of nodes.now) id)) }
{
    let node = node_at(nodes, id);
    let Kids::One(kid) = kids_of(&node.kids) else {
        return Err(ElabFault::Memory);
    };
    let frame = work.frame.len();
    let globals = work.globals.len();
    let before = mem::replace(&mut work.nodes, Vec::new(alloc));
    let operand = chosen_expression(alloc, env, &[], tokens, nodes, kid, work)?;
    cut_back(work, frame, globals);
    let own = mem::replace(&mut work.nodes, before);
    let ty = &typed_node_at(&own, operand.id).ty;
    sized_row(alloc, env, place(node.at), operand.at, ty, work)
}

// `sizeof(T)`
#[cycle(expressions)]
fn sized_type(
    alloc: Global,
    env: &Env,
    closures: &[Closure],
    tokens: &Tokens,
    nodes: &Nodes,
    id: NodeId,
    work: &mut Work,
) -> Result<Operand, ElabFault>
    requires within { id.0 < length nodes.now }
    requires kind { kind_of (tree_at (syntax_of nodes.now) id) ≡ syntax.SizeofType }
    ensures { Types (trees_of work.old.nodes.items) (trees_of work.new.nodes.items) (work_of work.new) result (expression_with (lexemes_of tokens.now) (ctx_of env.now) (map closure_of closures.now) (work_of work.old) (tree_at (syntax_of nodes.now) id)) }
{
    let node = node_at(nodes, id);
    let at = place(node.at);
    let Kids::One(kid) = kids_of(&node.kids) else {
        return Err(ElabFault::Memory);
    };
    let ty = written_type_id(alloc, env, &[], tokens, nodes, at, kid, work)?;
    sized_row(alloc, env, at, at, &ty, work)
}

// `[..](..) {..}`
fn lambda(
    alloc: Global,
    env: &Env,
    closures: &[Closure],
    tokens: &Tokens,
    nodes: &Nodes,
    id: NodeId,
    work: &mut Work,
) -> Result<Operand, ElabFault>
    requires within { id.0 < length nodes.now }
    requires kind { kind_of (tree_at (syntax_of nodes.now) id) ≡ syntax.Lambda }
    ensures { Types (trees_of work.old.nodes.items) (trees_of work.new.nodes.items) (work_of work.new) result (expression_with (lexemes_of tokens.now) (ctx_of env.now) (map closure_of closures.now) (work_of work.old) (tree_at (syntax_of nodes.now) id)) }
{
    let node = node_at(nodes, id);
    closure_row(alloc, env, closures, place(node.at), work)
}

// `E::N`
fn qualified_id(
    alloc: Global,
    env: &Env,
    closures: &[Closure],
    tokens: &Tokens,
    nodes: &Nodes,
    id: NodeId,
    work: &mut Work,
) -> Result<Operand, ElabFault>
    requires within { id.0 < length nodes.now }
    requires kind { kind_of (tree_at (syntax_of nodes.now) id) ≡ syntax.QualifiedId }
    ensures { Types (trees_of work.old.nodes.items) (trees_of work.new.nodes.items) (work_of work.new) result (expression_with (lexemes_of tokens.now) (ctx_of env.now) (map closure_of closures.now) (work_of work.old) (tree_at (syntax_of nodes.now) id)) }
{
    let node = node_at(nodes, id);
    let Some(name) = node.token else {
        return Err(ElabFault::Memory);
    };
    let Kids::One(kid) = kids_of(&node.kids) else {
        return Err(ElabFault::Memory);
    };
    let Some(owner) = node_at(nodes, kid).token else {
        return Err(ElabFault::Memory);
    };
    let owner = spelling(tokens, owner);
    let name = spelling(tokens, name);
    qualified_row(alloc, env, place(node.at), owner, name, work)
}

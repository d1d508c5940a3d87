// Enums as they are written (C++14 7.2).

ghost use Rattle.std.specs.Prelude.{◌≡◌, ◌<◌, List, length, true, pos, IfOk};
ghost use Rattle.elab_expr.specs.cpp_lex.Tokens.{lexemes_of};
ghost use Rattle.elab_expr.specs.cpp_ast.Orders.{are_below};
ghost use Rattle.cpp_types.specs.declared.classes.At.{At as AtOf};
ghost use Rattle.elab_expr.specs.cpp_tree.Arena.{trees_of};
ghost use Rattle.elab_expr.specs.cpp_tree.Units.{global_of};
ghost use Rattle.elab_expr.specs.elab_ctx.Ctx.{ctx_of, work_of};
ghost use Rattle.elab_expr.specs.elab_ctx.Operands.{operand_in};
ghost use Rattle.elab_expr.specs.elab_ctx.Says.{Tells};
ghost use Rattle.elab_expr.specs.elab_rules.Statements.{Body};
ghost use Rattle.elab_expr.specs.elab_rules.Globals.{enumerator_value, enumerator_declared as enumerator_declared_of, enumerators_declared as enumerators_declared_of, enum_with as enum_with_of, enum_declared as enum_declared_of};
ghost use Rattle.elab_expr.specs.elab_types.Shown.{Says};
ghost use Rattle.elab_expr.specs.elab_types.Syntax.{syntax_of, tree_at, trees_at};
ghost use Rattle.class_members.specs.Shown.{Answers};
ghost use Rattle.elab_decls.specs.Says.{changed, counted};
ghost use Rattle.elab_decls.specs.Enums.{valued_shown, found_value as found_value_of, written_value as written_value_of};

use crate::names::{close_enum, count_enumerators, enum_named, enum_type, enumerator_made};
use cpp_types::At;
use elab_expr::below::{
    ElabFault, Env, IllRule, NodeId, NodeKind, Nodes, Operand, TNode, Tokens, Work, arithmetic,
    constant, elab_types_node_at as node_at, first_kid, ill, node_at as typed_node_at, place,
    spelling, value, value_of_word,
};
use elab_expr::chosen_expression;
use elab_growth::cut_back;
use std::alloc::Global;
use std::mem;

/// The value of an enumerator, and where it stands.
#[derive(Clone, Copy)]
pub struct Valued {
    value: i128,
    at: At,
}

// The value of a constant expression.
fn operand_value(
    alloc: Global,
    work: &Work,
    nodes: &mut Vec<TNode>,
    o: Operand,
) -> Result<i128, ElabFault>
    requires { o.id.0 < length (trees_of nodes.old.items) }
    ensures { (at : AtOf) → Tells result (enumerator_value at (work_of work.now) (operand_in (trees_of nodes.old.items) o)) }
{
    let made = value(alloc, nodes, o)?;
    let Some(kind) = arithmetic(&typed_node_at(nodes, made).ty) else {
        return Err(ill(o.at, IllRule::BadOperand));
    };
    let Some(word) = constant(&work.globals, nodes, made)? else {
        return Err(ill(o.at, IllRule::NotConstant));
    };
    Ok(value_of_word(kind, word))
}

// The value that is written for an enumerator; what is made for it is cut off again.
fn written_value(
    alloc: Global,
    env: &Env,
    work: &mut Work,
    tokens: &Tokens,
    nodes: &Nodes,
    id: NodeId,
) -> Result<Valued, ElabFault>
    requires { id.0 < length nodes.now }
    ensures value { (at : AtOf) → Says valued_shown result (written_value_of (lexemes_of tokens.now) (ctx_of env.now) (work_of work.old) at (tree_at (syntax_of nodes.now) id)) }
    ensures kept { IfOk result (λ v. work_of work.new ≡ work_of work.old) }
{
    let frame = work.frame.len();
    let globals = work.globals.len();
    let before = mem::replace(&mut work.nodes, Vec::new(alloc));
    let o = chosen_expression(alloc, env, &env.closures, tokens, nodes, id, work)?;
    cut_back(work, frame, globals);
    let mut own = mem::replace(&mut work.nodes, before);
    let value = operand_value(alloc, work, &mut own, o)?;
    Ok(Valued { value, at: o.at })
}

// The value of an enumerator by the kids behind its name: the first one's, or the next.
fn found_value(
    alloc: Global,
    env: &Env,
    work: &mut Work,
    tokens: &Tokens,
    nodes: &Nodes,
    parent: NodeId,
    ids: &[NodeId],
    at: At,
    next: i128,
) -> Result<Valued, ElabFault>
    requires within { parent.0 < length nodes.now }
    requires lower { are_below parent.0 ids.now ≡ true }
    ensures value { Says valued_shown result (found_value_of (lexemes_of tokens.now) (ctx_of env.now) (work_of work.old) at next (trees_at (syntax_of nodes.now) ids.now)) }
    ensures kept { IfOk result (λ v. work_of work.new ≡ work_of work.old) }
{
    match first_kid(ids) {
        None => Ok(Valued { value: next, at }),
        Some(kid) => written_value(alloc, env, work, tokens, nodes, kid),
    }
}

// An enumerator; the answer is the value of the next.
fn enumerator_declared(
    alloc: Global,
    env: &mut Env,
    work: &mut Work,
    tokens: &Tokens,
    nodes: &Nodes,
    id: NodeId,
    scoped: bool,
    owner: &[u8],
    next: i128,
) -> Result<i128, ElabFault>
    requires { id.0 < length nodes.now }
    ensures { (bodies : List Body) → Says (counted (ctx_of env.new) (work_of work.new) bodies) result (enumerator_declared_of (lexemes_of tokens.now) scoped owner.now (counted (ctx_of env.old) (work_of work.old) bodies next) (tree_at (syntax_of nodes.now) id)) }
{
    let node = node_at(nodes, id);
    let at = place(node.at);
    let Some(token) = node.token else {
        return Err(ill(at, IllRule::OutOfProfile));
    };
    let found = found_value(alloc, env, work, tokens, nodes, id, &node.kids, at, next)?;
    let name = spelling(tokens, token);
    enumerator_made(alloc, env, scoped, owner, at, found.at, name, found.value)
}

// Enumerators in the order of the text, behind the name of their enum.
fn enumerators_declared(
    alloc: Global,
    env: &mut Env,
    work: &mut Work,
    tokens: &Tokens,
    nodes: &Nodes,
    parent: NodeId,
    ids: &[NodeId],
    scoped: bool,
    owner: &[u8],
) -> Result<i128, ElabFault>
    requires within { parent.0 < length nodes.now }
    requires lower { are_below parent.0 ids.now ≡ true }
    ensures { (bodies : List Body) → Says (counted (ctx_of env.new) (work_of work.new) bodies) result (enumerators_declared_of (lexemes_of tokens.now) scoped owner.now (counted (ctx_of env.old) (work_of work.old) bodies (pos 0)) (trees_at (syntax_of nodes.now) ids.now)) }
{
    let mut next: i128 = 0;
    for id in ids {
        next = enumerator_declared(alloc, env, work, tokens, nodes, *id, scoped, owner, next)?;
    }
    Ok(next)
}

// An enum, scoped or not.
fn enum_with(
    alloc: Global,
    env: &mut Env,
    work: &mut Work,
    tokens: &Tokens,
    nodes: &Nodes,
    parent: NodeId,
    ids: &[NodeId],
    scoped: bool,
    at: At,
    name: &[u8],
) -> Result<(), ElabFault>
    requires within { parent.0 < length nodes.now }
    requires lower { are_below parent.0 ids.now ≡ true }
    ensures { (bodies : List Body) → Answers (changed (ctx_of env.new) (work_of work.new) bodies) result (enum_with_of (lexemes_of tokens.now) (changed (ctx_of env.old) (work_of work.old) bodies) at name.now scoped (trees_at (syntax_of nodes.now) ids.now)) }
{
    enum_named(alloc, env, at, name, scoped)?;
    let from = count_enumerators(env)?;
    enumerators_declared(alloc, env, work, tokens, nodes, parent, ids, scoped, name)?;
    let ty = enum_type(alloc, name, scoped)?;
    close_enum(alloc, env, from, &ty)?;
    Ok(())
}

/// An enum: kids of a node are its key, if it is scoped, and its enumerators.
pub fn enum_declared(
    alloc: Global,
    env: &mut Env,
    work: &mut Work,
    tokens: &Tokens,
    nodes: &Nodes,
    parent: NodeId,
    ids: &[NodeId],
    at: At,
    name: &[u8],
) -> Result<(), ElabFault>
    requires within { parent.0 < length nodes.now }
    requires lower { are_below parent.0 ids.now ≡ true }
    ensures { (bodies : List Body) → Answers (changed (ctx_of env.new) (work_of work.new) bodies) result (enum_declared_of (lexemes_of tokens.now) (changed (ctx_of env.old) (work_of work.old) bodies) at name.now (trees_at (syntax_of nodes.now) ids.now)) }
{
    let Some(first) = first_kid(ids) else {
        return enum_with(
            alloc, env, work, tokens, nodes, parent, ids, false, at, name,
        );
    };
    match node_at(nodes, first).kind {
        NodeKind::ClassKey => {
            let rest = &ids[1..];
            enum_with(
                alloc, env, work, tokens, nodes, parent, rest, true, at, name,
            )
        }
        _ => enum_with(
            alloc, env, work, tokens, nodes, parent, ids, false, at, name,
        ),
    }
}

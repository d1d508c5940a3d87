// Objects by their initialisers, as they are written (C++14 8.5).

ghost use Rattle.std.specs.Prelude.{◌≡◌, ◌<◌, length, true};
ghost use Rattle.elab_expr.specs.cpp_lex.Tokens.{lexemes_of};
ghost use Rattle.elab_expr.specs.cpp_ast.Orders.{are_below};
ghost use Rattle.elab_expr.specs.cpp_types.Typ.{typ_of};
ghost use Rattle.elab_expr.specs.cpp_tree.Arena.{trees_of, tree_at as tree_in};
ghost use Rattle.elab_expr.specs.elab_ctx.Ctx.{ctx_of, work_of};
ghost use Rattle.elab_expr.specs.elab_ctx.Says.{Makes};
ghost use Rattle.elab_expr.specs.elab_rules.Braces.{is_char_array as is_char_array_of, string_token as string_token_of};
ghost use Rattle.elab_expr.specs.elab_types.Syntax.{syntax_of, tree_at, trees_at};
ghost use Rattle.elab_braces.specs.Forms.{shown_in, IsLower, by_form, by_values_in, by_value as by_value_of, by_expression as by_expression_of, object_by as object_by_of};

use crate::braces::item;
use crate::expressions::string_initialiser;
use crate::forms::{Written, read_initialiser};
use crate::initialising::{copy_initialised, default_object, directly_initialised};
use elab_aggregates::{is_char_array, string_token};
use elab_expr::below::{
    At, ElabFault, Env, IllRule, NodeId, Nodes, TNodeId, Tokens, Ty, Work, elab_init_ill as ill,
    elab_types_node_at as node_at, place,
};
use elab_expr::{chosen_expression, operands};
use std::alloc::Global;

// By values in parentheses.
fn by_values(
    alloc: Global,
    env: &Env,
    tokens: &Tokens,
    nodes: &Nodes,
    id: NodeId,
    work: &mut Work,
    ty: &Ty,
    at: At,
) -> Result<TNodeId, ElabFault>
    requires { id.0 < length nodes.now }
    ensures { Makes (trees_of work.old.nodes.items) (trees_of work.new.nodes.items) (work_of work.new) result (by_values_in (lexemes_of tokens.now) (ctx_of env.now) (work_of work.old) (typ_of ty.now) at (tree_at (syntax_of nodes.now) id)) }
{
    let kids = &node_at(nodes, id).kids;
    let os = operands(alloc, env, &env.closures, tokens, nodes, id, kids, work)?;
    directly_initialised(alloc, env, work, ty, at, &os)
}

// By an expression that is no string for an array of characters.
fn by_value(
    alloc: Global,
    env: &Env,
    tokens: &Tokens,
    nodes: &Nodes,
    id: NodeId,
    work: &mut Work,
    ty: &Ty,
) -> Result<TNodeId, ElabFault>
    requires { id.0 < length nodes.now }
    ensures { Makes (trees_of work.old.nodes.items) (trees_of work.new.nodes.items) (work_of work.new) result (by_value_of (lexemes_of tokens.now) (ctx_of env.now) (work_of work.old) (typ_of ty.now) (tree_at (syntax_of nodes.now) id)) }
{
    let o = chosen_expression(alloc, env, &env.closures, tokens, nodes, id, work)?;
    copy_initialised(alloc, env, work, ty, o)
}

// By an expression, or a string for an array of characters.
fn by_expression(
    alloc: Global,
    env: &Env,
    tokens: &Tokens,
    nodes: &Nodes,
    id: NodeId,
    work: &mut Work,
    ty: &Ty,
) -> Result<TNodeId, ElabFault>
    requires { id.0 < length nodes.now }
    ensures { Makes (trees_of work.old.nodes.items) (trees_of work.new.nodes.items) (work_of work.new) result (by_expression_of (lexemes_of tokens.now) (ctx_of env.now) (work_of work.old) (typ_of ty.now) (tree_at (syntax_of nodes.now) id) (is_char_array_of (typ_of ty.now)) (string_token_of (tree_at (syntax_of nodes.now) id))) }
{
    if !is_char_array(ty) {
        return by_value(alloc, env, tokens, nodes, id, work, ty);
    }
    match string_token(nodes, id) {
        Some(token) => {
            let at = place(node_at(nodes, id).at);
            string_initialiser(alloc, env, tokens, token, &mut work.nodes, ty, at)
        }
        None => by_value(alloc, env, tokens, nodes, id, work, ty),
    }
}

// By what is written.
fn by_written(
    alloc: Global,
    env: &Env,
    tokens: &Tokens,
    nodes: &Nodes,
    form: Written,
    work: &mut Work,
    object: TNodeId,
    ty: &Ty,
    at: At,
) -> Result<TNodeId, ElabFault>
    requires form { IsLower (length nodes.now) form }
    requires object { object.0 < length (trees_of work.old.nodes.items) }
    ensures { Makes (trees_of work.old.nodes.items) (trees_of work.new.nodes.items) (work_of work.new) result (by_form (lexemes_of tokens.now) (ctx_of env.now) (work_of work.old) (tree_in (trees_of work.old.nodes.items) object) (typ_of ty.now) at (shown_in (syntax_of nodes.now) form)) }
{
    match form {
        Written::Nothing => default_object(alloc, env, &mut work.nodes, ty, at),
        Written::Values(id) => by_values(alloc, env, tokens, nodes, id, work, ty, at),
        Written::Braces(id) => item(alloc, env, tokens, nodes, id, work, object, ty),
        Written::Expression(id) => by_expression(alloc, env, tokens, nodes, id, work, ty),
        Written::Other => Err(ill(at, IllRule::OutOfProfile)),
    }
}

/// What an object that stands where a tree says is initialised by: the kids of a node that are its initialiser, if it
/// has one. The place is that of its name.
pub fn object_by(
    alloc: Global,
    env: &Env,
    tokens: &Tokens,
    nodes: &Nodes,
    parent: NodeId,
    ids: &[NodeId],
    work: &mut Work,
    object: TNodeId,
    ty: &Ty,
    at: At,
) -> Result<TNodeId, ElabFault>
    requires within { parent.0 < length nodes.now }
    requires lower { are_below parent.0 ids.now ≡ true }
    requires object { object.0 < length (trees_of work.old.nodes.items) }
    ensures { Makes (trees_of work.old.nodes.items) (trees_of work.new.nodes.items) (work_of work.new) result (object_by_of (lexemes_of tokens.now) (ctx_of env.now) (work_of work.old) (tree_in (trees_of work.old.nodes.items) object) (typ_of ty.now) at (trees_at (syntax_of nodes.now) ids.now)) }
{
    let form = read_initialiser(nodes, parent, ids);
    by_written(alloc, env, tokens, nodes, form, work, object, ty, at)
}

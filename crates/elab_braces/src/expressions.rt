// Items that are expressions or strings.

ghost use Rattle.std.specs.Prelude.{◌<◌, length};
ghost use Rattle.elab_expr.specs.cpp_lex.Tokens.{lexemes_of};
ghost use Rattle.elab_expr.specs.cpp_types.Typ.{typ_of};
ghost use Rattle.elab_expr.specs.cpp_tree.Arena.{trees_of};
ghost use Rattle.elab_expr.specs.cpp_tree.Typing.{form_in};
ghost use Rattle.elab_expr.specs.elab_ctx.Ctx.{ctx_of, work_of};
ghost use Rattle.elab_expr.specs.elab_ctx.Steps.{and_then, Typed, spelling as spelling_of};
ghost use Rattle.elab_expr.specs.elab_ctx.Says.{Gives, Makes};
ghost use Rattle.elab_expr.specs.elab_rules.Strings.{string_bytes as string_bytes_of};
ghost use Rattle.elab_expr.specs.elab_rules.Expressions.{expression_of, chosen_operand};
ghost use Rattle.elab_expr.specs.elab_rules.Braces.{item_in as item_in_of, item_expression, string_token as string_token_of, string_object as string_object_of, syntax_place};
ghost use Rattle.elab_expr.specs.elab_types.Syntax.{syntax_of, tree_at};

use elab_aggregates::{is_char_array, item_in, string_object, string_token};
use elab_expr::below::{
    At, ElabFault, Env, NodeId, Nodes, TNode, TNodeId, Tokens, Ty, Work,
    elab_types_node_at as node_at, place, spelling, string_bytes,
};
use elab_expr::chosen_expression;
use std::alloc::Global;

/// An array of characters by the string of a token.
pub fn string_initialiser(
    alloc: Global,
    env: &Env,
    tokens: &Tokens,
    token: u32,
    nodes: &mut Vec<TNode>,
    ty: &Ty,
    at: At,
) -> Result<TNodeId, ElabFault>
    ensures { Gives (trees_of nodes.old.items) (trees_of nodes.new.items) result (string_object_of (ctx_of env.now) (typ_of ty.now) at (string_bytes_of (spelling_of (lexemes_of tokens.now) token))) }
{
    let bytes = string_bytes(alloc, spelling(tokens, token))?;
    string_object(alloc, env, nodes, ty, at, &bytes)
}

// An object by an expression.
fn expression_item(
    alloc: Global,
    env: &Env,
    tokens: &Tokens,
    nodes: &Nodes,
    id: NodeId,
    work: &mut Work,
    ty: &Ty,
) -> Result<TNodeId, ElabFault>
    requires { id.0 < length nodes.now }
    ensures { Makes (trees_of work.old.nodes.items) (trees_of work.new.nodes.items) (work_of work.new) result (and_then (and_then (expression_of (lexemes_of tokens.now) (ctx_of env.now) (work_of work.old) (tree_at (syntax_of nodes.now) id)) (chosen_operand (ctx_of env.now))) (λ (o : Typed). item_in_of (ctx_of env.now) o.work (typ_of ty.now) (form_in (typ_of ty.now)) o.operand)) }
{
    let o = chosen_expression(alloc, env, &env.closures, tokens, nodes, id, work)?;
    item_in(alloc, env, work, ty, o)
}

/// What an item that is not in braces makes of an object of a type.
pub fn plain_item(
    alloc: Global,
    env: &Env,
    tokens: &Tokens,
    nodes: &Nodes,
    id: NodeId,
    work: &mut Work,
    ty: &Ty,
) -> Result<TNodeId, ElabFault>
    requires { id.0 < length nodes.now }
    ensures { Makes (trees_of work.old.nodes.items) (trees_of work.new.nodes.items) (work_of work.new) result (item_expression (lexemes_of tokens.now) (ctx_of env.now) (work_of work.old) (typ_of ty.now) (string_token_of (tree_at (syntax_of nodes.now) id)) (syntax_place (tree_at (syntax_of nodes.now) id)) (and_then (expression_of (lexemes_of tokens.now) (ctx_of env.now) (work_of work.old) (tree_at (syntax_of nodes.now) id)) (chosen_operand (ctx_of env.now)))) }
{
    match string_token(nodes, id) {
        Some(token) => {
            if is_char_array(ty) {
                let at = place(node_at(nodes, id).at);
                return string_initialiser(alloc, env, tokens, token, &mut work.nodes, ty, at);
            }
            expression_item(alloc, env, tokens, nodes, id, work, ty)
        }
        None => expression_item(alloc, env, tokens, nodes, id, work, ty),
    }
}

// Bounds that are integer literals, which need nothing of what was made before.

ghost use Rattle.std.specs.Prelude.{◌≡◌, ◌<◌, List, length, true};
ghost use Rattle.elab_rows.specs.cpp_lex.Tokens.{lexemes_of};
ghost use Rattle.elab_rows.specs.cpp_types.Typ.{typ_of};
ghost use Rattle.elab_rows.specs.cpp_ast.Trees.{kind_of};
ghost use Rattle.elab_rows.specs.elab_ctx.Ctx.{Closure, ctx_of, work_of};
ghost use Rattle.elab_rows.specs.elab_ctx.Steps.{and_then, Typed};
ghost use Rattle.elab_rows.specs.elab_rules.Expressions.{expression_with, chosen_operand, bounded as bounded_of};
ghost use Rattle.elab_rows.specs.elab_types.Shown.{Says};
ghost use Rattle.elab_rows.specs.elab_types.Syntax.{syntax_of, tree_at};
ghost use Rattle.elab_expr.specs.Forms.{is_integer_literal as is_integer_literal_of};

use crate::scratch::no_work;
use elab_rows::below::{
    At, ElabFault, Env, NodeId, Nodes, Tokens, Ty, Work, elab_types_node_at as node_at, place,
};
use elab_rows::{bounded, leaf_row};
use std::alloc::Global;

/// An array of a type, whose bound is an integer literal.
pub fn literal_bound(
    alloc: Global,
    env: &Env,
    tokens: &Tokens,
    nodes: &Nodes,
    at: At,
    ty: &Ty,
    id: NodeId,
    work: &Work,
) -> Result<Ty, ElabFault>
    requires within { id.0 < length nodes.now }
    requires kind { is_integer_literal_of (kind_of (tree_at (syntax_of nodes.now) id)) ≡ true }
    ensures { (l : List Closure) → Says typ_of result (and_then (and_then (expression_with (lexemes_of tokens.now) (ctx_of env.now) l (work_of work.now) (tree_at (syntax_of nodes.now) id)) (chosen_operand (ctx_of env.now))) (λ (x : Typed). bounded_of (ctx_of env.now) (work_of work.now) at (typ_of ty.now) x.operand)) }
{
    let node = node_at(nodes, id);
    let Some(token) = node.token else {
        return Err(ElabFault::Memory);
    };
    if !node.kids.is_empty() {
        return Err(ElabFault::Memory);
    }
    let mut scratch = no_work(alloc);
    let operand = leaf_row(
        alloc,
        env,
        tokens,
        node.kind,
        place(node.at),
        token,
        &mut scratch,
    )?;
    bounded(alloc, env, at, ty, operand, &mut scratch.nodes, work)
}

// Expressions and types, with the lambdas that were made before them.

ghost use Rattle.std.specs.Prelude.{◌≡◌, ◌<◌, length, true, IfOk};
ghost use Rattle.elab_expr.specs.cpp_lex.Tokens.{lexemes_of};
ghost use Rattle.elab_expr.specs.cpp_ast.Orders.{are_below};
ghost use Rattle.elab_expr.specs.cpp_types.Typ.{typ_of};
ghost use Rattle.elab_expr.specs.cpp_tree.Arena.{trees_of};
ghost use Rattle.elab_expr.specs.elab_ctx.Ctx.{ctx_of, work_of};
ghost use Rattle.elab_expr.specs.elab_ctx.Steps.{and_then};
ghost use Rattle.elab_expr.specs.elab_rules.Expressions.{expression_of, chosen_operand, operands_of, type_of_specifiers as type_of_specifiers_of, declared_by as declared_by_of};
ghost use Rattle.elab_expr.specs.elab_types.Shown.{Says, declared_of};
ghost use Rattle.elab_expr.specs.elab_types.Syntax.{syntax_of, tree_at, trees_at};
ghost use Rattle.elab_expr.specs.elab_rows.Typed.{Types, TypesAll};
ghost use Rattle.elab_expr.specs.Unmoved.{Unmoved};

use elab_expr::below::{At, Declared, ElabFault, Env, NodeId, Nodes, Operand, Tokens, Ty, Work};
use elab_expr::{chosen_expression, declared, operands, type_of_specifiers};
use std::alloc::Global;

/// An expression, where functions of a name are one function.
pub fn operand(
    alloc: Global,
    env: &Env,
    tokens: &Tokens,
    nodes: &Nodes,
    id: NodeId,
    work: &mut Work,
) -> Result<Operand, ElabFault>
    requires { id.0 < length nodes.now }
    ensures { Types (trees_of work.old.nodes.items) (trees_of work.new.nodes.items) (work_of work.new) result (and_then (expression_of (lexemes_of tokens.now) (ctx_of env.now) (work_of work.old) (tree_at (syntax_of nodes.now) id)) (chosen_operand (ctx_of env.now))) }
{
    chosen_expression(alloc, env, &env.closures, tokens, nodes, id, work)
}

/// Several expressions, from left to right.
pub fn values(
    alloc: Global,
    env: &Env,
    tokens: &Tokens,
    nodes: &Nodes,
    parent: NodeId,
    ids: &[NodeId],
    work: &mut Work,
) -> Result<Vec<Operand>, ElabFault>
    requires within { parent.0 < length nodes.now }
    requires lower { are_below parent.0 ids.now ≡ true }
    ensures { TypesAll (trees_of work.old.nodes.items) (trees_of work.new.nodes.items) (work_of work.new) result (operands_of (lexemes_of tokens.now) (ctx_of env.now) (work_of work.old) (trees_at (syntax_of nodes.now) ids.now)) }
{
    operands(alloc, env, &env.closures, tokens, nodes, parent, ids, work)
}

/// The type that a list of specifiers gives. Of what is made for the bounds of arrays and for operands of `sizeof` nothing stays.
pub fn specified(
    alloc: Global,
    env: &Env,
    tokens: &Tokens,
    nodes: &Nodes,
    id: NodeId,
    work: &mut Work,
) -> Result<Ty, ElabFault>
    requires { id.0 < length nodes.now }
    ensures says { Says typ_of result (type_of_specifiers_of (lexemes_of tokens.now) (ctx_of env.now) (work_of work.old) (tree_at (syntax_of nodes.now) id)) }
    ensures kept { IfOk result (λ t. Unmoved work.old work.new) }
{
    type_of_specifiers(alloc, env, &env.closures, tokens, nodes, id, work)
}

/// What a declarator declares of a type. Of what is made on the way nothing stays.
pub fn declared_by(
    alloc: Global,
    env: &Env,
    tokens: &Tokens,
    nodes: &Nodes,
    at: At,
    ty: &Ty,
    id: NodeId,
    work: &mut Work,
) -> Result<Declared, ElabFault>
    requires { id.0 < length nodes.now }
    ensures says { Says declared_of result (declared_by_of (lexemes_of tokens.now) (ctx_of env.now) (work_of work.old) at (typ_of ty.now) (tree_at (syntax_of nodes.now) id)) }
    ensures kept { IfOk result (λ d. Unmoved work.old work.new) }
{
    declared(alloc, env, &env.closures, tokens, nodes, at, ty, id, work)
}

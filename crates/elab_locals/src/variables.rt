// Variables of blocks (C++14 3.3.3, 6.7).

ghost use Rattle.std.specs.Prelude.{◌≡◌, ◌<◌, length, true, option_map};
ghost use Rattle.elab_scopes.specs.cpp_lex.Tokens.{lexemes_of};
ghost use Rattle.elab_scopes.specs.cpp_ast.Orders.{are_below};
ghost use Rattle.elab_scopes.specs.cpp_types.Typ.{typ_of};
ghost use Rattle.elab_scopes.specs.cpp_tree.Arena.{tree_at as tree_in};
ghost use Rattle.elab_scopes.specs.elab_ctx.Ctx.{ctx_of};
ghost use Rattle.elab_scopes.specs.elab_ctx.Says.{Tells};
ghost use Rattle.elab_scopes.specs.elab_rules.Statements.{declarable as declarable_of, variable as variable_of};
ghost use Rattle.elab_scopes.specs.elab_types.Syntax.{syntax_of, trees_at};
ghost use Rattle.elab_scopes.specs.States.{state_of, made};
ghost use Rattle.elab_scopes.specs.Says.{Does};
ghost use Rattle.elab_locals.specs.Variables.{plain_made as plain_made_of, plain_read};
ghost use Rattle.elab_locals.specs.Deducing.{Variables};

use crate::autos::auto_variable;
use crate::inits::local;
use crate::written::initialised;
use elab_braces::bound_by_initialiser;
use elab_ops::pointers::within_if_sized;
use elab_scopes::below::{
    At, ElabFault, Env, IllRule, NodeId, Nodes, Shape, TNodeId, Tokens, Ty, has_auto, ill,
    is_bounded, is_complete_type,
};
use elab_scopes::handlers::place_variable;
use elab_scopes::{MakeLambdas, State};
use elab_sizes::typ_sized;
use std::alloc::Global;

// Tests that an object of a type may be declared.
fn declarable(env: &Env, at: At, ty: &Ty) -> Result<bool, ElabFault>
    ensures { Tells result (declarable_of (ctx_of env.now) at (typ_of ty.now)) }
{
    match &ty.shape {
        Shape::Void => Err(ill(at, IllRule::BadDeclaration)),
        Shape::Func(_) => Err(ill(at, IllRule::OutOfProfile)),
        Shape::Int(_)
        | Shape::Enum { .. }
        | Shape::Null
        | Shape::Ptr(_)
        | Shape::Ref(_)
        | Shape::Array(_, _)
        | Shape::Class(_)
        | Shape::Closure(_)
        | Shape::TxEx(_) => {
            if is_complete_type(env, ty) {
                Ok(true)
            } else {
                Err(ill(at, IllRule::Incomplete))
            }
        }
    }
}

// A variable that is declared, which a node stands for.
fn plain_made<L: MakeLambdas>(
    alloc: Global,
    lams: &L,
    tokens: &Tokens,
    nodes: &Nodes,
    parent: NodeId,
    ids: &[NodeId],
    st: &mut State,
    variable: TNodeId,
    ty: &Ty,
    at: At,
) -> Result<TNodeId, ElabFault>
    requires within { parent.0 < length nodes.now }
    requires lower { are_below parent.0 ids.now ≡ true }
    requires variable { variable.0 < length (made st.old) }
    ensures { Does st.old st.new result (plain_made_of (L.lambdas lams.now) (lexemes_of tokens.now) (tree_in (made st.old) variable) (state_of st.old) (typ_of ty.now) at (trees_at (syntax_of nodes.now) ids.now)) }
{
    declarable(&st.env, at, ty)?;
    if !is_bounded(ty) {
        return Err(ill(at, IllRule::BadDeclaration));
    }
    typ_sized(&st.env, at, ty)?;
    within_if_sized(&st.env, at, ty)?;
    initialised(
        alloc, lams, tokens, nodes, parent, ids, st, variable, ty, at,
    )
}

// A variable of a type that is known.
fn plain_variable<L: MakeLambdas>(
    alloc: Global,
    lams: &L,
    tokens: &Tokens,
    nodes: &Nodes,
    parent: NodeId,
    ids: &[NodeId],
    st: &mut State,
    name: &[u8],
    ty: &Ty,
    at: At,
) -> Result<TNodeId, ElabFault>
    requires within { parent.0 < length nodes.now }
    requires lower { are_below parent.0 ids.now ≡ true }
    ensures { Does st.old st.new result (plain_read (L.lambdas lams.now) (lexemes_of tokens.now) (state_of st.old) name.now (typ_of ty.now) at (trees_at (syntax_of nodes.now) ids.now)) }
{
    let place = place_variable(alloc, st, at, name, ty)?;
    let variable = local(alloc, &mut st.work.nodes, place, ty, at)?;
    plain_made(
        alloc, lams, tokens, nodes, parent, ids, st, variable, ty, at,
    )
}

/// A variable of a block, and what stands for `auto` in its type.
pub fn variable<L: MakeLambdas>(
    alloc: Global,
    lams: &L,
    tokens: &Tokens,
    nodes: &Nodes,
    parent: NodeId,
    ids: &[NodeId],
    st: &mut State,
    name: &[u8],
    ty: &Ty,
    at: At,
    auto: &mut Option<Ty>,
) -> Result<TNodeId, ElabFault>
    requires within { parent.0 < length nodes.now }
    requires lower { are_below parent.0 ids.now ≡ true }
    ensures { Variables st.old st.new auto.new result (variable_of (L.lambdas lams.now) (lexemes_of tokens.now) (state_of st.old) name.now (typ_of ty.now) at (option_map typ_of auto.old) (trees_at (syntax_of nodes.now) ids.now)) }
{
    if has_auto(ty) {
        return auto_variable(
            alloc, lams, tokens, nodes, parent, ids, st, name, ty, at, auto,
        );
    }
    let bound = bound_by_initialiser(alloc, tokens, nodes, parent, ids, ty)?;
    plain_variable(
        alloc, lams, tokens, nodes, parent, ids, st, name, &bound, at,
    )
}

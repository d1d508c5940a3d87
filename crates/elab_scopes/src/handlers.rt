// What handlers catch (C++14 15.3).

ghost use Rattle.std.specs.Prelude.{◌≡◌, ◌<◌, length};
ghost use Rattle.elab_expr.specs.cpp_lex.Tokens.{lexemes_of};
ghost use Rattle.elab_expr.specs.cpp_types.Typ.{typ_of};
ghost use Rattle.elab_expr.specs.cpp_tree.Typing.{form_in};
ghost use Rattle.elab_expr.specs.elab_ctx.Ctx.{ctx_of};
ghost use Rattle.elab_expr.specs.cpp_tree.declared.faults.IllRule.TheVariants.{BadCatch};
ghost use Rattle.elab_expr.specs.elab_ctx.Says.{Tells};
ghost use Rattle.elab_expr.specs.elab_ctx.Steps.{check};
ghost use Rattle.elab_expr.specs.elab_rules.Objects.{traits_at as traits_at_of};
ghost use Rattle.elab_expr.specs.elab_rules.Statements.{caught_form as caught_form_of, caught_type as caught_type_of, named_handler as named_handler_of, handler_type as handler_type_of};
ghost use Rattle.elab_expr.specs.elab_types.Shown.{Says};
ghost use Rattle.elab_expr.specs.elab_types.Syntax.{syntax_of, tree_at as syntax_at};
ghost use Rattle.elab_scopes.specs.States.{state_of};
ghost use Rattle.elab_scopes.specs.Caught.{Places, Catches, typed_handler as typed_handler_of, parameter_caught as parameter_caught_of};

use crate::reading::{declared_by, specified};
use crate::scopes::declare;
use crate::state::{Caught, State};
use elab_expr::below::{
    At, ElabFault, Env, IllRule, Kids, NodeId, NodeKind, Nodes, Shape, Tokens, Ty, add_item, copy,
    elab_types_node_at as node_at, fields, ill, kids_of, place, plain_type, spelling,
    traits_of_class, within_exception,
};
use std::alloc::Global;

fn is_copied_bytewise(env: &Env, class: u32) -> bool
    ensures { result ≡ (traits_at_of (ctx_of env.now) class).is_trivially_copyable }
{
    match traits_of_class(env, class) {
        Some(found) => found.is_trivially_copyable,
        None => false,
    }
}

// Tests that values are thrown, where it is known whether they are.
fn caught_if(at: At, are_thrown: bool) -> Result<bool, ElabFault>
    ensures { Tells result (check at BadCatch are_thrown) }
{
    if are_thrown {
        Ok(true)
    } else {
        Err(ill(at, IllRule::BadCatch))
    }
}

// Tests that values of a type are thrown.
fn caught_form(env: &Env, at: At, ty: &Ty) -> Result<bool, ElabFault>
    ensures { Tells result (caught_form_of (ctx_of env.now) at (form_in (typ_of ty.now))) }
{
    match &ty.shape {
        Shape::Int(_) | Shape::TxEx(_) => Ok(true),
        Shape::Enum { name, .. } => caught_if(at, !name.is_empty()),
        Shape::Class(class) => caught_if(at, is_copied_bytewise(env, *class)),
        Shape::Void
        | Shape::Null
        | Shape::Ptr(_)
        | Shape::Ref(_)
        | Shape::Array(_, _)
        | Shape::Func(_)
        | Shape::Closure(_) => Err(ill(at, IllRule::BadCatch)),
    }
}

// The type of what is caught: a reference is one to `const`.
fn caught_type(alloc: Global, env: &Env, at: At, ty: &Ty) -> Result<Ty, ElabFault>
    ensures { Says typ_of result (caught_type_of (ctx_of env.now) at (typ_of ty.now)) }
{
    match &ty.shape {
        Shape::Ref(target) => {
            if !target.is_const {
                return Err(ill(at, IllRule::OutOfProfile));
            }
            caught_form(env, at, target)?;
            let found = copy(alloc, target)?;
            Ok(found)
        }
        Shape::Void
        | Shape::Int(_)
        | Shape::Enum { .. }
        | Shape::Null
        | Shape::Ptr(_)
        | Shape::Array(_, _)
        | Shape::Func(_)
        | Shape::Class(_)
        | Shape::Closure(_)
        | Shape::TxEx(_) => {
            caught_form(env, at, ty)?;
            let found = copy(alloc, ty)?;
            Ok(found)
        }
    }
}

/// A variable with its item of the frame, whose place is answered. The innermost scope has no such name.
pub fn place_variable(
    alloc: Global,
    st: &mut State,
    at: At,
    name: &[u8],
    ty: &Ty,
) -> Result<u32, ElabFault>
    ensures { Places st.old st.new at name.now (typ_of ty.now) result }
{
    let item = copy(alloc, ty)?;
    let place = add_item(&mut st.work, item)?;
    let ty = copy(alloc, ty)?;
    declare(&mut st.env, at, name, Some(ty), place)?;
    Ok(place)
}

// A handler with a name, or without one. What it catches is declared at a place.
fn named_handler(
    alloc: Global,
    tokens: &Tokens,
    st: &mut State,
    at: At,
    place: At,
    ty: Ty,
    inner: &Ty,
    name: Option<u32>,
) -> Result<Caught, ElabFault>
    ensures { Catches st.old st.new result (named_handler_of (lexemes_of tokens.now) (state_of st.old) at place (typ_of ty) (typ_of inner.now) name) }
{
    let Some(name) = name else {
        return Ok(Caught {
            ty,
            place: None,
            fields: Vec::new(alloc),
        });
    };
    within_exception(&st.env, place, inner)?;
    let Ok(slot) = place_variable(alloc, st, place, spelling(tokens, name), inner) else {
        return Err(ElabFault::Memory);
    };
    let fields = fields(alloc, &st.env, &mut st.work.nodes, at, inner)?;
    Ok(Caught {
        ty,
        place: Some(slot),
        fields,
    })
}

// What a handler of a type catches.
fn typed_handler(
    alloc: Global,
    tokens: &Tokens,
    st: &mut State,
    at: At,
    place: At,
    ty: Ty,
    name: Option<u32>,
) -> Result<Caught, ElabFault>
    ensures { Catches st.old st.new result (typed_handler_of (lexemes_of tokens.now) (state_of st.old) at place (typ_of ty) name) }
{
    let inner = caught_type(alloc, &st.env, place, &ty)?;
    named_handler(alloc, tokens, st, at, place, ty, &inner, name)
}

// What a handler of a declared type catches, which is declared at a place.
fn parameter_caught(
    alloc: Global,
    tokens: &Tokens,
    nodes: &Nodes,
    at: At,
    place: At,
    base: NodeId,
    declarator: NodeId,
    st: &mut State,
) -> Result<Caught, ElabFault>
    requires base { base.0 < length nodes.now }
    requires declarator { declarator.0 < length nodes.now }
    ensures { Catches st.old st.new result (parameter_caught_of (lexemes_of tokens.now) (state_of st.old) at place (syntax_at (syntax_of nodes.now) base) (syntax_at (syntax_of nodes.now) declarator)) }
{
    let ty = specified(alloc, &st.env, tokens, nodes, base, &mut st.work)?;
    let found = declared_by(
        alloc,
        &st.env,
        tokens,
        nodes,
        place,
        &ty,
        declarator,
        &mut st.work,
    )?;
    typed_handler(alloc, tokens, st, at, place, found.ty, found.name)
}

/// What a handler catches: with `...`, anything.
pub fn handler_type(
    alloc: Global,
    tokens: &Tokens,
    nodes: &Nodes,
    at: At,
    id: NodeId,
    st: &mut State,
) -> Result<Caught, ElabFault>
    requires { id.0 < length nodes.now }
    ensures { Catches st.old st.new result (handler_type_of (lexemes_of tokens.now) (state_of st.old) at (syntax_at (syntax_of nodes.now) id)) }
{
    let node = node_at(nodes, id);
    match node.kind {
        NodeKind::ParameterDeclaration => {
            let Kids::Two(base, declarator) = kids_of(&node.kids) else {
                return Err(ElabFault::Memory);
            };
            let here = place(node.at);
            parameter_caught(alloc, tokens, nodes, at, here, base, declarator, st)
        }
        _ => Ok(Caught {
            ty: plain_type(Shape::Void),
            place: None,
            fields: Vec::new(alloc),
        }),
    }
}

// What a lambda captured, and `this` (C++14 5.1.2, 9.3.2).

ghost use Rattle.std.specs.Prelude.{◌≡◌, ◌<◌, length, map, MatchOption, None, Some, IfOk};
ghost use Rattle.elab_conv.specs.cpp_types.Typ.{typ_of};
ghost use Rattle.elab_conv.specs.cpp_tree.Arena.{trees_of, tree_at, Adds};
ghost use Rattle.elab_conv.specs.elab_ctx.Ctx.{ctx_of, work_of, this_of, lambda_of, capture_of};
ghost use Rattle.elab_conv.specs.elab_ctx.Says.{Gives};
ghost use Rattle.elab_conv.specs.elab_rules.Names.{same_variable as same_variable_of, captured_from, captured_place as captured_place_of, in_capture as in_capture_of, captured_variable as captured_variable_of, is_outer, variable_in, this_in, this_tree as this_tree_of};
ghost use Rattle.elab_names.specs.Members.{referred_capture, copied_capture};

use crate::offsets::offset_at;
use crate::parts::{ill, part_at, qualified_type};
use crate::variables::{this_pointer, variable_at};
use elab_conv::below::{
    At, Capture, Cat, ElabFault, Env, IllRule, IntKind, Lambda, Shape, TKind, TNode, TNodeId, This,
    Ty, Work, add_unary, copy,
};
use elab_conv::valued;
use std::alloc::{AllocError, Global};

/// Whether two captures are of one variable, or both of `this`.
pub fn is_same_variable(a: Option<u32>, b: Option<u32>) -> bool
    ensures { result ≡ same_variable_of a b }
{
    match (a, b) {
        (Some(m), Some(n)) => m == n,
        (None, None) => true,
        (Some(_), None) => false,
        (None, Some(_)) => false,
    }
}

/// A capture, and its index among the members of the lambda's class.
#[derive(Clone, Copy)]
pub struct CapturedAt<'a> {
    pub index: u32,
    pub capture: &'a Capture,
}

// The capture of a variable, or of `this`.
fn captured_at(
    captures: &[Capture],
    variable: Option<u32>,
) -> Result<Option<CapturedAt<'_>>, AllocError>
    ensures { IfOk result (λ o. MatchOption o (captured_from 0 variable (map capture_of captures.now) ≡ None) (λ x. captured_from 0 variable (map capture_of captures.now) ≡ Some (record { index = x.index; capture = capture_of x.capture.now }))) }
{
    for (i, capture) in captures.iter().enumerate() {
        if is_same_variable(variable, capture.variable) {
            let Ok(index) = u32::try_from(i) else {
                return Err(AllocError);
            };
            return Ok(Some(CapturedAt { index, capture }));
        }
    }
    Ok(None)
}

// The member of a lambda's object in which a capture is, with a type.
fn captured_place(
    alloc: Global,
    env: &Env,
    nodes: &mut Vec<TNode>,
    at: At,
    this: &This,
    lambda: &Lambda,
    index: u32,
    ty: Ty,
) -> Result<TNodeId, AllocError>
    ensures { IfOk result (λ r. Adds (trees_of nodes.old.items) (trees_of nodes.new.items) r (captured_place_of (ctx_of env.now) at (this_of this.now) (lambda_of lambda.now) index (typ_of ty))) }
{
    let offset = offset_at(env, lambda.class, index)?;
    let object = this_pointer(alloc, nodes, at, this)?;
    part_at(alloc, nodes, offset, ty, at, object)
}

// What was captured by reference: the object to which the member refers.
fn by_reference(
    alloc: Global,
    env: &Env,
    nodes: &mut Vec<TNode>,
    at: At,
    this: &This,
    lambda: &Lambda,
    index: u32,
    target: &Ty,
    ty: &Ty,
) -> Result<TNodeId, AllocError>
    ensures { IfOk result (λ r. Adds (trees_of nodes.old.items) (trees_of nodes.new.items) r (referred_capture (ctx_of env.now) at (this_of this.now) (lambda_of lambda.now) index (typ_of target.now) (typ_of ty.now))) }
{
    let ty = copy(alloc, ty)?;
    let slot = captured_place(alloc, env, nodes, at, this, lambda, index, ty)?;
    let target = copy(alloc, target)?;
    let load = TKind::Load {
        kind: IntKind::ULong,
        volatile: false,
    };
    add_unary(alloc, nodes, load, target, Cat::Lvalue, at, slot)
}

// What was captured by copy: the member itself, which is `const` where the lambda's object is.
fn by_copy(
    alloc: Global,
    env: &Env,
    nodes: &mut Vec<TNode>,
    at: At,
    this: &This,
    lambda: &Lambda,
    index: u32,
    ty: &Ty,
) -> Result<TNodeId, AllocError>
    ensures { IfOk result (λ r. Adds (trees_of nodes.old.items) (trees_of nodes.new.items) r (copied_capture (ctx_of env.now) at (this_of this.now) (lambda_of lambda.now) index (typ_of ty.now))) }
{
    let ty = qualified_type(alloc, this.ty.is_const, false, ty)?;
    captured_place(alloc, env, nodes, at, this, lambda, index, ty)
}

// A captured variable, or `this`, in the object of the lambda.
fn in_capture(
    alloc: Global,
    env: &Env,
    nodes: &mut Vec<TNode>,
    at: At,
    this: &This,
    lambda: &Lambda,
    index: u32,
    ty: &Ty,
) -> Result<TNodeId, AllocError>
    ensures { IfOk result (λ r. Adds (trees_of nodes.old.items) (trees_of nodes.new.items) r (in_capture_of (ctx_of env.now) at (this_of this.now) (lambda_of lambda.now) index (typ_of ty.now))) }
{
    match &ty.shape {
        Shape::Ref(target) => {
            by_reference(alloc, env, nodes, at, this, lambda, index, target, ty)
        }
        Shape::Void
        | Shape::Int(_)
        | Shape::Enum { .. }
        | Shape::Null
        | Shape::Ptr(_)
        | Shape::Array(_, _)
        | Shape::Func(_)
        | Shape::Class(_)
        | Shape::Closure(_)
        | Shape::TxEx(_) => by_copy(alloc, env, nodes, at, this, lambda, index, ty),
    }
}

// A variable that a lambda captured.
fn captured_variable(
    alloc: Global,
    env: &Env,
    nodes: &mut Vec<TNode>,
    at: At,
    variable: u32,
    lambda: &Lambda,
) -> Result<TNodeId, ElabFault>
    ensures { Gives (trees_of nodes.old.items) (trees_of nodes.new.items) result (captured_variable_of (ctx_of env.now) at variable (lambda_of lambda.now)) }
{
    let Some(found) = captured_at(&lambda.captures, Some(variable))? else {
        return Err(ill(at, IllRule::Capture));
    };
    let Some(this) = &env.this else {
        return Err(ill(at, IllRule::UnknownName));
    };
    let made = in_capture(
        alloc,
        env,
        nodes,
        at,
        this,
        lambda,
        found.index,
        &found.capture.ty,
    )?;
    Ok(made)
}

/// A variable of the function at hand, by its number; one of the function around a lambda is what that captured.
pub fn variable(
    alloc: Global,
    env: &Env,
    work: &mut Work,
    at: At,
    number: u32,
) -> Result<TNodeId, ElabFault>
    ensures tree { Gives (trees_of work.old.nodes.items) (trees_of work.new.nodes.items) result (variable_in (ctx_of env.now) (work_of work.old) at number (is_outer number (ctx_of env.now).lambda)) }
    ensures work { work_of work.new ≡ work_of work.old }
{
    match &env.lambda {
        Some(lambda) => {
            if number < lambda.outer {
                captured_variable(alloc, env, &mut work.nodes, at, number, lambda)
            } else {
                variable_at(alloc, env, work, at, number)
            }
        }
        None => variable_at(alloc, env, work, at, number),
    }
}

// `this` in a lambda.
fn captured_this(
    alloc: Global,
    env: &Env,
    nodes: &mut Vec<TNode>,
    at: At,
    lambda: &Lambda,
) -> Result<TNodeId, ElabFault>
    ensures { Gives (trees_of nodes.old.items) (trees_of nodes.new.items) result (this_in (ctx_of env.now) at (Some (lambda_of lambda.now))) }
{
    let Some(found) = captured_at(&lambda.captures, None)? else {
        return Err(ill(at, IllRule::Capture));
    };
    let Some(this) = &env.this else {
        return Err(ill(at, IllRule::UnknownName));
    };
    let made = in_capture(
        alloc,
        env,
        nodes,
        at,
        this,
        lambda,
        found.index,
        &found.capture.ty,
    )?;
    let value = valued(alloc, nodes, at, made)?;
    Ok(value)
}

/// The pointer `this`; in a lambda the one that it captured.
pub fn this_tree(
    alloc: Global,
    env: &Env,
    nodes: &mut Vec<TNode>,
    at: At,
) -> Result<TNodeId, ElabFault>
    ensures { Gives (trees_of nodes.old.items) (trees_of nodes.new.items) result (this_tree_of (ctx_of env.now) at) }
{
    match &env.lambda {
        Some(lambda) => captured_this(alloc, env, nodes, at, lambda),
        None => {
            let Some(this) = &env.this else {
                return Err(ill(at, IllRule::UnknownName));
            };
            let made = this_pointer(alloc, nodes, at, this)?;
            Ok(made)
        }
    }
}

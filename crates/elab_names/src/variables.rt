// Variables of the function at hand, `this`, and what a lambda captured (C++14 5.1.1, 5.1.2, 9.3.2).

ghost use Rattle.std.specs.Prelude.{◌≡◌, map, unwrap_or, slice_get, None, IfOk};
ghost use Rattle.elab_conv.specs.cpp_types.Typ.{typ_of};
ghost use Rattle.elab_conv.specs.cpp_tree.Arena.{trees_of, Adds};
ghost use Rattle.elab_conv.specs.elab_ctx.Ctx.{ctx_of, work_of, this_of, variable_of};
ghost use Rattle.elab_conv.specs.elab_ctx.Says.{Gives};
ghost use Rattle.elab_conv.specs.elab_rules.Names.{held_by as held_by_of, is_pointer as is_pointer_of, variable_tree as variable_tree_of, this_pointer as this_pointer_of, own_variable as own_variable_of, variable_in};
ghost use Rattle.elab_names.specs.Members.{object_tree};

use crate::parts::{ill, is_class_type};
use elab_conv::below::{
    At, Cat, ElabFault, Env, IllRule, IntKind, Shape, TKind, TNode, TNodeId, This, Ty, Variable,
    Work, add_leaf, add_unary, copy,
};
use elab_conv::types::pointer_to;
use std::alloc::{AllocError, Global};

// An address that a slot holds: the slot has the type of its item of the frame.
fn held_by(
    alloc: Global,
    nodes: &mut Vec<TNode>,
    ty: &Ty,
    item: &Ty,
    at: At,
    place: u32,
) -> Result<TNodeId, AllocError>
    ensures { IfOk result (λ r. Adds (trees_of nodes.old.items) (trees_of nodes.new.items) r (held_by_of (typ_of ty.now) (typ_of item.now) at place)) }
{
    let item = copy(alloc, item)?;
    let slot = add_leaf(alloc, nodes, TKind::Local { place }, item, Cat::Lvalue, at)?;
    let ty = copy(alloc, ty)?;
    let load = TKind::Load {
        kind: IntKind::ULong,
        volatile: false,
    };
    add_unary(alloc, nodes, load, ty, Cat::Lvalue, at, slot)
}

fn is_pointer(ty: &Ty) -> bool
    ensures { result ≡ is_pointer_of (typ_of ty.now) }
{
    match &ty.shape {
        Shape::Ptr(_) => true,
        Shape::Void
        | Shape::Int(_)
        | Shape::Enum { .. }
        | Shape::Null
        | Shape::Ref(_)
        | Shape::Array(_, _)
        | Shape::Func(_)
        | Shape::Class(_)
        | Shape::Closure(_)
        | Shape::TxEx(_) => false,
    }
}

// A variable that is no reference: in its place, or an object to which its place holds a pointer.
fn object_variable(
    alloc: Global,
    nodes: &mut Vec<TNode>,
    at: At,
    place: u32,
    item: &Ty,
    ty: &Ty,
) -> Result<TNodeId, AllocError>
    ensures { IfOk result (λ r. Adds (trees_of nodes.old.items) (trees_of nodes.new.items) r (object_tree at place (typ_of item.now) (typ_of ty.now))) }
{
    if is_class_type(ty) && is_pointer(item) {
        return held_by(alloc, nodes, ty, item, at, place);
    }
    let ty = copy(alloc, ty)?;
    add_leaf(alloc, nodes, TKind::Local { place }, ty, Cat::Lvalue, at)
}

// A variable of a type, in the place of an item of the frame.
fn variable_tree(
    alloc: Global,
    nodes: &mut Vec<TNode>,
    at: At,
    place: u32,
    item: &Ty,
    ty: &Ty,
) -> Result<TNodeId, AllocError>
    ensures { IfOk result (λ r. Adds (trees_of nodes.old.items) (trees_of nodes.new.items) r (variable_tree_of at place (typ_of item.now) (typ_of ty.now))) }
{
    match &ty.shape {
        Shape::Ref(target) => held_by(alloc, nodes, target, ty, at, place),
        Shape::Void
        | Shape::Int(_)
        | Shape::Enum { .. }
        | Shape::Null
        | Shape::Ptr(_)
        | Shape::Array(_, _)
        | Shape::Func(_)
        | Shape::Class(_)
        | Shape::Closure(_)
        | Shape::TxEx(_) => object_variable(alloc, nodes, at, place, item, ty),
    }
}

// The item of the frame in a place; the type itself where there is none.
fn item_at<'a>(frame: &'a [Ty], place: u32, ty: &'a Ty) -> &'a Ty
    ensures { typ_of result.now ≡ unwrap_or (slice_get (map typ_of frame.now) place) (typ_of ty.now) }
{
    match frame.get(place as usize) {
        Some(item) => item,
        None => ty,
    }
}

// A variable of the function itself. Its type is not known in its own initialiser where that gives it.
fn own_variable(
    alloc: Global,
    work: &mut Work,
    at: At,
    variable: &Variable,
) -> Result<TNodeId, ElabFault>
    ensures tree { Gives (trees_of work.old.nodes.items) (trees_of work.new.nodes.items) result (own_variable_of (work_of work.old) at (variable_of variable.now)) }
    ensures work { work_of work.new ≡ work_of work.old }
{
    let Some(ty) = &variable.ty else {
        return Err(ill(at, IllRule::BadInit));
    };
    let item = copy(alloc, item_at(&work.frame, variable.place, ty))?;
    let made = variable_tree(alloc, &mut work.nodes, at, variable.place, &item, ty)?;
    Ok(made)
}

/// A variable of the function at hand, by its number, where no lambda stands between.
pub fn variable_at(
    alloc: Global,
    env: &Env,
    work: &mut Work,
    at: At,
    variable: u32,
) -> Result<TNodeId, ElabFault>
    ensures tree { Gives (trees_of work.old.nodes.items) (trees_of work.new.nodes.items) result (variable_in (ctx_of env.now) (work_of work.old) at variable None) }
    ensures work { work_of work.new ≡ work_of work.old }
{
    let Some(found) = env.variables.get(variable as usize) else {
        return Err(ill(at, IllRule::UnknownName));
    };
    own_variable(alloc, work, at, found)
}

/// The pointer `this` of a member function.
pub fn this_pointer(
    alloc: Global,
    nodes: &mut Vec<TNode>,
    at: At,
    this: &This,
) -> Result<TNodeId, AllocError>
    ensures { IfOk result (λ r. Adds (trees_of nodes.old.items) (trees_of nodes.new.items) r (this_pointer_of at (this_of this.now))) }
{
    let slot = pointer_to(alloc, copy(alloc, &this.ty)?)?;
    let local = TKind::Local { place: this.place };
    let local = add_leaf(alloc, nodes, local, slot, Cat::Lvalue, at)?;
    let ty = pointer_to(alloc, copy(alloc, &this.ty)?)?;
    let load = TKind::Load {
        kind: IntKind::ULong,
        volatile: false,
    };
    add_unary(alloc, nodes, load, ty, Cat::Prvalue, at, local)
}

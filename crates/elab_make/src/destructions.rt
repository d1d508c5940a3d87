// Destructions of objects (C++14 12.4).

ghost use Rattle.std.specs.Prelude.{◌≡◌, IfOk, map};
ghost use Rattle.elab_init.specs.cpp_types.Typ.{typ_of};
ghost use Rattle.elab_init.specs.cpp_types.Class.{classes_of};
ghost use Rattle.elab_init.specs.cpp_tree.Arena.{trees_of};
ghost use Rattle.elab_init.specs.cpp_tree.Typing.{form_in};
ghost use Rattle.elab_init.specs.elab_ctx.Ctx.{ctx_of, special_of};
ghost use Rattle.elab_init.specs.elab_ctx.Says.{AddsAll};
ghost use Rattle.elab_init.specs.elab_rules.Objects.{count_in, stride_of as stride_by, destroyed, destroys_in as destroys_in_of, destroys_at, backwards, destroys as destroys_by};
ghost use Rattle.elab_init.specs.Parts.{part_of};

use crate::lists::one_of;
use elab_init::below::{
    At, Cat, Env, Shape, Special, TKind, TNode, TNodeId, Ty, add_leaf, size_of,
};
use elab_init::{ObjectPart, element_type, keep_all, parts_of, traits_at};
use std::alloc::{AllocError, Global};

/// How many objects an array has, counted through its bounds.
pub fn count_of(ty: &Ty) -> Result<u32, AllocError>
    ensures { IfOk result (λ n. n ≡ count_in (typ_of ty.now)) }
{
    match &ty.shape {
        Shape::Array(element, count) => {
            let all = *count as u64 * count_of(element)? as u64;
            let Ok(all) = u32::try_from(all) else {
                return Err(AllocError);
            };
            Ok(all)
        }
        Shape::Void
        | Shape::Int(_)
        | Shape::Enum { .. }
        | Shape::Null
        | Shape::Ptr(_)
        | Shape::Ref(_)
        | Shape::Func(_)
        | Shape::Class(_)
        | Shape::Closure(_)
        | Shape::TxEx(_) => Ok(1),
    }
}

// How far apart the objects of an array lie.
fn stride_of(alloc: Global, env: &Env, ty: &Ty) -> Result<u32, AllocError>
    ensures { IfOk result (λ n. n ≡ stride_by (classes_of env.now.classes.items) (typ_of ty.now)) }
{
    match &ty.shape {
        Shape::Array(_, _) => {
            let element = element_type(alloc, ty)?;
            size_of(env, &element)
        }
        Shape::Void
        | Shape::Int(_)
        | Shape::Enum { .. }
        | Shape::Null
        | Shape::Ptr(_)
        | Shape::Ref(_)
        | Shape::Func(_)
        | Shape::Class(_)
        | Shape::Closure(_)
        | Shape::TxEx(_) => Ok(0),
    }
}

// The calls of a destructor for objects at an offset, if there is one.
fn destructions(
    alloc: Global,
    env: &Env,
    nodes: &mut Vec<TNode>,
    destructor: Special,
    offset: u32,
    ty: &Ty,
    at: At,
) -> Result<Vec<TNodeId>, AllocError>
    ensures { IfOk result (λ ids. AddsAll (trees_of nodes.old.items) (trees_of nodes.new.items) ids.items (destroyed (special_of destructor) offset (count_in (typ_of ty.now)) (stride_by (classes_of env.now.classes.items) (typ_of ty.now)) at)) }
{
    let Special::Function(func) = destructor else {
        return Ok(Vec::new(alloc));
    };
    let count = count_of(ty)?;
    let stride = stride_of(alloc, env, ty)?;
    let kind = TKind::Destroy {
        func,
        offset,
        count,
        stride,
    };
    let void = Ty {
        shape: Shape::Void,
        is_const: false,
        is_volatile: false,
    };
    let id = add_leaf(alloc, nodes, kind, void, Cat::Prvalue, at)?;
    one_of(alloc, id)
}

// The destructions of objects at an offset, by the type of one.
fn destroys_in(
    alloc: Global,
    env: &Env,
    nodes: &mut Vec<TNode>,
    offset: u32,
    at: At,
    ty: &Ty,
    element: &Ty,
) -> Result<Vec<TNodeId>, AllocError>
    ensures { IfOk result (λ ids. AddsAll (trees_of nodes.old.items) (trees_of nodes.new.items) ids.items (destroys_in_of (ctx_of env.now) offset at (typ_of ty.now) (form_in (typ_of element.now)))) }
{
    match &element.shape {
        Shape::Class(class) => {
            let destructor = traits_at(env, *class).destructor;
            destructions(alloc, env, nodes, destructor, offset, ty, at)
        }
        Shape::Void
        | Shape::Int(_)
        | Shape::Enum { .. }
        | Shape::Null
        | Shape::Ptr(_)
        | Shape::Ref(_)
        | Shape::Array(_, _)
        | Shape::Func(_)
        | Shape::Closure(_)
        | Shape::TxEx(_) => Ok(Vec::new(alloc)),
    }
}

// The destructions of a part.
fn destroys_of_part(
    alloc: Global,
    env: &Env,
    nodes: &mut Vec<TNode>,
    at: At,
    part: &ObjectPart,
) -> Result<Vec<TNodeId>, AllocError>
    ensures { IfOk result (λ ids. AddsAll (trees_of nodes.old.items) (trees_of nodes.new.items) ids.items (destroys_at (ctx_of env.now) at (part_of part.now))) }
{
    let element = element_type(alloc, &part.ty)?;
    destroys_in(alloc, env, nodes, part.offset, at, &part.ty, &element)
}

// The destructions of parts from the last one back.
fn destroys_back(
    alloc: Global,
    env: &Env,
    nodes: &mut Vec<TNode>,
    at: At,
    parts: &[ObjectPart],
) -> Result<Vec<TNodeId>, AllocError>
    ensures { IfOk result (λ ids. AddsAll (trees_of nodes.old.items) (trees_of nodes.new.items) ids.items (backwards (destroys_at (ctx_of env.now) at) (map part_of parts.now))) }
{
    let mut ids = Vec::new(alloc);
    let mut left = parts.len();
    'parts: while left > 0 {
        left = left - 1;
        let more = destroys_of_part(alloc, env, nodes, at, &parts[left])?;
        keep_all(&mut ids, &more)?;
    }
    Ok(ids)
}

/// The destructions of an object; those of a lambda's object are those of what it captured.
pub fn destroys(
    alloc: Global,
    env: &Env,
    nodes: &mut Vec<TNode>,
    at: At,
    ty: &Ty,
) -> Result<Vec<TNodeId>, AllocError>
    ensures { IfOk result (λ ids. AddsAll (trees_of nodes.old.items) (trees_of nodes.new.items) ids.items (destroys_by (ctx_of env.now) at (typ_of ty.now))) }
{
    let element = element_type(alloc, ty)?;
    match &element.shape {
        Shape::Closure(class) => {
            let parts = parts_of(alloc, env, *class)?;
            destroys_back(alloc, env, nodes, at, &parts)
        }
        Shape::Void
        | Shape::Int(_)
        | Shape::Enum { .. }
        | Shape::Null
        | Shape::Ptr(_)
        | Shape::Ref(_)
        | Shape::Array(_, _)
        | Shape::Func(_)
        | Shape::Class(_)
        | Shape::TxEx(_) => destroys_in(alloc, env, nodes, 0, at, ty, &element),
    }
}

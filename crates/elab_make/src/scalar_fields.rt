// The scalars of an exception, in order (C++14 15.1).

ghost use Rattle.std.specs.Prelude.{◌≡◌, ◌+◌, IfOk, map};
ghost use Rattle.elab_init.specs.cpp_types.Typ.{typ_of};
ghost use Rattle.elab_init.specs.cpp_types.Class.{classes_of};
ghost use Rattle.elab_init.specs.cpp_tree.Arena.{trees_of};
ghost use Rattle.elab_init.specs.cpp_tree.Typing.{form_in, kind_in};
ghost use Rattle.elab_init.specs.elab_ctx.Says.{AddsAll};
ghost use Rattle.elab_init.specs.elab_rules.Objects.{class_fields, fields as fields_by, scalar_field as scalar_field_of};
ghost use Rattle.elab_init.specs.Parts.{part_of};
ghost use Rattle.elab_make.specs.Fields.{fields_at, fields_of, fields_of_each};

use crate::lists::one_of;
use elab_init::below::{
    At, Cat, Env, Shape, TKind, TNode, TNodeId, Ty, add_leaf, kind_of, size_of,
};
use elab_init::{ObjectPart, keep_all, parts_of};
use std::alloc::{AllocError, Global};

// How deep calls nest that go into arrays and classes: deeper than types and classes do. A deeper one counts as want
// of memory.
const LEVELS: u32 = 4_000_000_000;

// The sum of two offsets. One that passes 32 bits counts as want of memory: types that large are refused where they are
// formed.
fn offset_sum(offset: u32, more: u32) -> Result<u32, AllocError>
    ensures { IfOk result (λ r. r ≡ offset + more) }
{
    let Ok(sum) = u32::try_from(offset as u64 + more as u64) else {
        return Err(AllocError);
    };
    Ok(sum)
}

// A scalar at an offset; a type of no scalar has none.
fn scalar_field(
    alloc: Global,
    nodes: &mut Vec<TNode>,
    at: At,
    offset: u32,
    ty: &Ty,
) -> Result<Vec<TNodeId>, AllocError>
    ensures { IfOk result (λ ids. AddsAll (trees_of nodes.old.items) (trees_of nodes.new.items) ids.items (scalar_field_of at offset (kind_in (form_in (typ_of ty.now))))) }
{
    let Some(kind) = kind_of(ty) else {
        return Ok(Vec::new(alloc));
    };
    let void = Ty {
        shape: Shape::Void,
        is_const: false,
        is_volatile: false,
    };
    let kind = TKind::Field { offset, kind };
    let id = add_leaf(alloc, nodes, kind, void, Cat::Prvalue, at)?;
    one_of(alloc, id)
}

// The scalars of an object at an offset, in which classes nest no deeper than this.
#[cycle(fields)]
fn add_fields(
    alloc: Global,
    env: &Env,
    nodes: &mut Vec<TNode>,
    levels: u32,
    depth: usize,
    at: At,
    offset: u32,
    ty: &Ty,
) -> Result<Vec<TNodeId>, AllocError>
    ensures { IfOk result (λ ids. AddsAll (trees_of nodes.old.items) (trees_of nodes.new.items) ids.items (fields_at depth (classes_of env.now.classes.items) at offset (typ_of ty.now))) }
{
    if levels == 0 {
        return Err(AllocError);
    }
    match &ty.shape {
        Shape::Array(element, count) => {
            let stride = size_of(env, element)?;
            add_repeated(
                alloc,
                env,
                nodes,
                levels - 1,
                depth,
                at,
                offset,
                element,
                stride,
                *count,
            )
        }
        Shape::Class(class) | Shape::Closure(class) => {
            add_class(alloc, env, nodes, levels - 1, depth, at, offset, *class)
        }
        Shape::TxEx(value) => {
            add_fields(alloc, env, nodes, levels - 1, depth, at, offset, value)
        }
        Shape::Void
        | Shape::Int(_)
        | Shape::Enum { .. }
        | Shape::Null
        | Shape::Ptr(_)
        | Shape::Ref(_)
        | Shape::Func(_) => scalar_field(alloc, nodes, at, offset, ty),
    }
}

// The scalars of so many objects of a type from an offset on.
#[cycle(fields)]
fn add_repeated(
    alloc: Global,
    env: &Env,
    nodes: &mut Vec<TNode>,
    levels: u32,
    depth: usize,
    at: At,
    offset: u32,
    ty: &Ty,
    stride: u32,
    count: u32,
) -> Result<Vec<TNodeId>, AllocError>
    ensures { IfOk result (λ ids. AddsAll (trees_of nodes.old.items) (trees_of nodes.new.items) ids.items (fields_of_each depth (classes_of env.now.classes.items) at (typ_of ty.now) offset stride count)) }
{
    if levels == 0 {
        return Err(AllocError);
    }
    let mut ids = Vec::new(alloc);
    let mut here = offset;
    let mut left = count;
    'objects: while left > 0 {
        let more = add_fields(alloc, env, nodes, levels - 1, depth, at, here, ty)?;
        keep_all(&mut ids, &more)?;
        here = offset_sum(here, stride)?;
        left = left - 1;
    }
    Ok(ids)
}

// The scalars of an object of a class.
#[cycle(fields)]
fn add_class(
    alloc: Global,
    env: &Env,
    nodes: &mut Vec<TNode>,
    levels: u32,
    depth: usize,
    at: At,
    offset: u32,
    class: u32,
) -> Result<Vec<TNodeId>, AllocError>
    ensures { IfOk result (λ ids. AddsAll (trees_of nodes.old.items) (trees_of nodes.new.items) ids.items (class_fields depth (classes_of env.now.classes.items) at class offset)) }
{
    if levels == 0 {
        return Err(AllocError);
    }
    if depth == 0 {
        return Ok(Vec::new(alloc));
    }
    let parts = parts_of(alloc, env, class)?;
    add_parts(alloc, env, nodes, levels - 1, depth - 1, at, offset, &parts)
}

// The scalars of the parts of an object.
#[cycle(fields)]
fn add_parts(
    alloc: Global,
    env: &Env,
    nodes: &mut Vec<TNode>,
    levels: u32,
    depth: usize,
    at: At,
    offset: u32,
    parts: &[ObjectPart],
) -> Result<Vec<TNodeId>, AllocError>
    ensures { IfOk result (λ ids. AddsAll (trees_of nodes.old.items) (trees_of nodes.new.items) ids.items (fields_of depth (classes_of env.now.classes.items) at offset (map part_of parts.now))) }
{
    if levels == 0 {
        return Err(AllocError);
    }
    let mut ids = Vec::new(alloc);
    for part in parts {
        let here = offset_sum(offset, part.offset)?;
        let more = add_fields(alloc, env, nodes, levels - 1, depth, at, here, &part.ty)?;
        keep_all(&mut ids, &more)?;
    }
    Ok(ids)
}

/// The scalars of a type, in order.
pub fn fields(
    alloc: Global,
    env: &Env,
    nodes: &mut Vec<TNode>,
    at: At,
    ty: &Ty,
) -> Result<Vec<TNodeId>, AllocError>
    ensures { IfOk result (λ ids. AddsAll (trees_of nodes.old.items) (trees_of nodes.new.items) ids.items (fields_by (classes_of env.now.classes.items) at (typ_of ty.now))) }
{
    let depth = env.classes.len();
    add_fields(alloc, env, nodes, LEVELS, depth, at, 0, ty)
}

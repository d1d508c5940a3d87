// What a destructor does to its object (C++14 12.4): the class pointer, then what is to be done behind the block, for the
// base and for each member, then the block.

ghost use Rattle.std.specs.Prelude.{◌≡◌, ◌∷◌, Some, slice_get, IfOk};
ghost use Rattle.cpp_types.specs.Typ.{typ_of};
ghost use Rattle.cpp_types.specs.Class.{classes_of};
ghost use Rattle.elab_entry.specs.cpp_tree.Arena.{trees_of, tree_at, trees_at, Adds};
ghost use Rattle.elab_entry.specs.elab_ctx.Ctx.{ctx_of};
ghost use Rattle.elab_entry.specs.elab_ctx.Says.{AddsAll};
ghost use Rattle.elab_entry.specs.elab_rules.Names.{members_in};
ghost use Rattle.elab_entry.specs.elab_rules.Calls.{base_of_class as base_of_class_of};
ghost use Rattle.elab_entry.specs.elab_rules.Members.{own_base as own_base_of, base_deferred as base_deferred_of, members_deferred as members_deferred_of, member_type as member_type_of, destructor_tree as destructor_tree_of};
ghost use Rattle.elab_implicit.specs.Ending.{member_deferred as member_deferred_of, deferred as deferred_of, parts_ended as parts_ended_of, part_tree};

use crate::object::{class_type, own_base, own_part, pointer_stored};
use crate::parts::{base_of_class, member_count, member_type};
use crate::places::all_stand;
use cpp_types::{At, Ty};
use elab_entry::below::{
    Env, TKind, TNode, TNodeId, block, destroys, keep, keep_all, offset_at, one_of, statement,
};
use std::alloc::{AllocError, Global};

// A part and its destructions in one list.
fn deferred_kids(
    alloc: Global,
    object: TNodeId,
    ends: &[TNodeId],
) -> Result<Vec<TNodeId>, AllocError>
    ensures { IfOk result (λ v. v.items ≡ object ∷ ends.now) }
{
    let mut kids = Vec::new(alloc);
    keep(&mut kids, object)?;
    keep_all(&mut kids, ends)?;
    Ok(kids)
}

// A part with its destructions, as a list.
fn deferred(
    alloc: Global,
    nodes: &mut Vec<TNode>,
    at: At,
    object: TNodeId,
    ends: &[TNodeId],
) -> Result<Vec<TNodeId>, AllocError>
    ensures { IfOk result (λ ids. AddsAll (trees_of nodes.old.items) (trees_of nodes.new.items) ids.items (deferred_of at (tree_at (trees_of nodes.old.items) object) (trees_at (trees_of nodes.old.items) ends.now))) }
{
    let kids = deferred_kids(alloc, object, ends)?;
    let made = statement(nodes, TKind::Defer, at, kids)?;
    one_of(alloc, made)
}

// The base with its destructions.
fn base_behind(
    alloc: Global,
    nodes: &mut Vec<TNode>,
    at: At,
    class: u32,
    base: u32,
    ends: &[TNodeId],
) -> Result<Vec<TNodeId>, AllocError>
    ensures { IfOk result (λ ids. AddsAll (trees_of nodes.old.items) (trees_of nodes.new.items) ids.items (deferred_of at (own_base_of class at base) (trees_at (trees_of nodes.old.items) ends.now))) }
{
    all_stand(nodes, ends)?;
    let object = own_base(alloc, nodes, at, class, base)?;
    deferred(alloc, nodes, at, object, ends)
}

// What is to be done for a base, if that is anything.
fn base_ended(
    alloc: Global,
    env: &Env,
    nodes: &mut Vec<TNode>,
    at: At,
    class: u32,
    base: u32,
) -> Result<Vec<TNodeId>, AllocError>
    ensures { IfOk result (λ ids. AddsAll (trees_of nodes.old.items) (trees_of nodes.new.items) ids.items (base_deferred_of (ctx_of env.now) at class (Some base))) }
{
    let ends = destroys(alloc, env, nodes, at, &class_type(base))?;
    if ends.is_empty() {
        return Ok(ends);
    }
    base_behind(alloc, nodes, at, class, base, &ends)
}

// What is to be done for the base, if there is one.
fn base_deferred(
    alloc: Global,
    env: &Env,
    nodes: &mut Vec<TNode>,
    at: At,
    class: u32,
) -> Result<Vec<TNodeId>, AllocError>
    ensures { IfOk result (λ ids. AddsAll (trees_of nodes.old.items) (trees_of nodes.new.items) ids.items (base_deferred_of (ctx_of env.now) at class (base_of_class_of (slice_get (ctx_of env.now).classes class)))) }
{
    match base_of_class(env, class) {
        Some(base) => base_ended(alloc, env, nodes, at, class, base),
        None => Ok(Vec::new(alloc)),
    }
}

// A member with its destructions.
fn member_behind(
    alloc: Global,
    nodes: &mut Vec<TNode>,
    at: At,
    class: u32,
    offset: u32,
    ty: &Ty,
    ends: &[TNodeId],
) -> Result<Vec<TNodeId>, AllocError>
    ensures { IfOk result (λ ids. AddsAll (trees_of nodes.old.items) (trees_of nodes.new.items) ids.items (deferred_of at (part_tree class at offset (typ_of ty.now)) (trees_at (trees_of nodes.old.items) ends.now))) }
{
    all_stand(nodes, ends)?;
    let object = own_part(alloc, nodes, at, class, offset, ty)?;
    deferred(alloc, nodes, at, object, ends)
}

// What is to be done for a member of a type, if that is anything.
fn typed_ended(
    alloc: Global,
    env: &Env,
    nodes: &mut Vec<TNode>,
    at: At,
    class: u32,
    member: u32,
    ty: &Ty,
) -> Result<Vec<TNodeId>, AllocError>
    ensures { IfOk result (λ ids. AddsAll (trees_of nodes.old.items) (trees_of nodes.new.items) ids.items (member_deferred_of (ctx_of env.now) at class member (typ_of ty.now))) }
{
    let ends = destroys(alloc, env, nodes, at, ty)?;
    if ends.is_empty() {
        return Ok(ends);
    }
    let offset = offset_at(env, class, member)?;
    member_behind(alloc, nodes, at, class, offset, ty, &ends)
}

// The same of the member with an index.
fn member_ended(
    alloc: Global,
    env: &Env,
    nodes: &mut Vec<TNode>,
    at: At,
    class: u32,
    member: u32,
) -> Result<Vec<TNodeId>, AllocError>
    ensures { IfOk result (λ ids. AddsAll (trees_of nodes.old.items) (trees_of nodes.new.items) ids.items (member_deferred_of (ctx_of env.now) at class member (member_type_of (slice_get (members_in (slice_get (classes_of env.now.classes.items) class)) member)))) }
{
    let ty = member_type(alloc, env, class, member)?;
    typed_ended(alloc, env, nodes, at, class, member, &ty)
}

// What is to be done for all members.
fn members_deferred(
    alloc: Global,
    env: &Env,
    nodes: &mut Vec<TNode>,
    at: At,
    class: u32,
) -> Result<Vec<TNodeId>, AllocError>
    ensures { IfOk result (λ ids. AddsAll (trees_of nodes.old.items) (trees_of nodes.new.items) ids.items (members_deferred_of (ctx_of env.now) at class 0 (members_in (slice_get (classes_of env.now.classes.items) class)))) }
{
    let mut list = Vec::new(alloc);
    let count = member_count(env, class)?;
    for member in 0..count {
        let more = member_ended(alloc, env, nodes, at, class, member)?;
        keep_all(&mut list, &more)?;
    }
    Ok(list)
}

// The class pointer, and what is to be done for all parts.
fn parts_ended(
    alloc: Global,
    env: &Env,
    nodes: &mut Vec<TNode>,
    at: At,
    class: u32,
) -> Result<Vec<TNodeId>, AllocError>
    ensures { IfOk result (λ ids. AddsAll (trees_of nodes.old.items) (trees_of nodes.new.items) ids.items (parts_ended_of (ctx_of env.now) at class)) }
{
    let mut list = pointer_stored(alloc, env, nodes, at, class)?;
    let base = base_deferred(alloc, env, nodes, at, class)?;
    keep_all(&mut list, &base)?;
    let members = members_deferred(alloc, env, nodes, at, class)?;
    keep_all(&mut list, &members)?;
    Ok(list)
}

/// What a destructor does, with these statements in its block.
pub fn destructor_tree(
    alloc: Global,
    env: &Env,
    nodes: &mut Vec<TNode>,
    at: At,
    place: At,
    class: u32,
    list: Vec<TNodeId>,
) -> Result<TNodeId, AllocError>
    ensures { IfOk result (λ r. Adds (trees_of nodes.old.items) (trees_of nodes.new.items) r (destructor_tree_of (ctx_of env.now) at place class (trees_at (trees_of nodes.old.items) list.items))) }
{
    all_stand(nodes, &list)?;
    let mut kids = parts_ended(alloc, env, nodes, at, class)?;
    let inner = block(nodes, place, list)?;
    keep(&mut kids, inner)?;
    statement(nodes, TKind::Block { subobjects: false }, place, kids)
}

// Aggregates and their parts (C++14 8.5.1).

ghost use Rattle.std.specs.Prelude.{◌≡◌, ◌*◌, MatchOption, None, Some, IfOk, map, option_map, slice_get};
ghost use Rattle.elab_make.specs.cpp_types.Typ.{typ_of};
ghost use Rattle.elab_make.specs.cpp_types.Class.{classes_of, member_of};
ghost use Rattle.elab_make.specs.cpp_tree.Typing.{form_in, qualified};
ghost use Rattle.elab_make.specs.elab_ctx.Ctx.{ctx_of, func_of};
ghost use Rattle.elab_make.specs.elab_ctx.Places.{passes};
ghost use Rattle.elab_make.specs.elab_ctx.Says.{Tells};
ghost use Rattle.elab_make.specs.elab_rules.Objects.{size_of as size_by};
ghost use Rattle.elab_make.specs.elab_rules.Initialising.{makes as makes_of, places_from};
ghost use Rattle.elab_make.specs.elab_rules.Names.{offset_at as offset_by, members_in};
ghost use Rattle.elab_make.specs.elab_rules.Braces.{is_virtual_member as is_virtual_member_of, is_written_constructor as is_written_constructor_of, is_empty, has_no_base as has_no_base_of, is_aggregate_class as is_aggregate_class_of, part_in as part_in_of, braceable as braceable_of};
ghost use Rattle.elab_make.specs.elab_init.Parts.{part_of};

use elab_make::below::{
    At, ElabFault, Env, FuncDecl, FuncKind, Functions, IllRule, MemberRec, ObjectPart, Shape, Ty,
    class_at, completion, elab_init_ill as ill, qualified_type, same_number, size_of,
};
use elab_names::offset_at;
use std::alloc::{AllocError, Global};

fn is_virtual_member(found: &FuncDecl, class: u32) -> bool
    ensures { result ≡ is_virtual_member_of class (func_of found.now) }
{
    same_number(class, found.class) && found.rec.is_virtual
}

fn makes(kind: FuncKind) -> bool
    ensures { result ≡ makes_of kind }
{
    match kind {
        FuncKind::Constructor => true,
        FuncKind::Plain | FuncKind::Destructor | FuncKind::ClosureCall => false,
    }
}

fn is_written_constructor(found: &FuncDecl, class: u32) -> bool
    ensures { result ≡ is_written_constructor_of class (func_of found.now) }
{
    same_number(class, found.class) && makes(found.kind) && !found.implicit
}

// Whether a virtual member of a class stands at a place.
fn is_virtual_at(funcs: &Functions, place: u32, class: u32) -> bool
    ensures { result ≡ passes (λ f. is_virtual_member_of class (func_of f)) (slice_get funcs.now place) }
{
    match funcs.get(place as usize) {
        Some(found) => is_virtual_member(found, class),
        None => false,
    }
}

// Whether a constructor of a class that is written stands at a place.
fn is_constructor_at(funcs: &Functions, place: u32, class: u32) -> bool
    ensures { result ≡ passes (λ f. is_written_constructor_of class (func_of f)) (slice_get funcs.now place) }
{
    match funcs.get(place as usize) {
        Some(found) => is_written_constructor(found, class),
        None => false,
    }
}

// Whether no function is a virtual member of a class.
fn has_no_virtual(funcs: &Functions, class: u32) -> bool
    ensures { result ≡ is_empty (places_from (is_virtual_member_of class) 0 (map func_of funcs.now)) }
{
    let members = funcs.of_class(class);
    for place in members {
        if is_virtual_at(funcs, *place, class) {
            return false;
        }
    }
    true
}

// Whether no function is a constructor of a class that is written.
fn has_no_constructor(funcs: &Functions, class: u32) -> bool
    ensures { result ≡ is_empty (places_from (is_written_constructor_of class) 0 (map func_of funcs.now)) }
{
    let members = funcs.of_class(class);
    for place in members {
        if is_constructor_at(funcs, *place, class) {
            return false;
        }
    }
    true
}

fn has_no_base(env: &Env, class: u32) -> bool
    ensures { result ≡ has_no_base_of (slice_get (classes_of env.now.classes.items) class) }
{
    match class_at(env, class) {
        Some(found) => found.base.is_none(),
        None => false,
    }
}

/// Whether a class is an aggregate: without base, virtual functions and written constructors.
pub fn is_aggregate_class(env: &Env, class: u32) -> bool
    ensures { result ≡ is_aggregate_class_of (ctx_of env.now) class }
{
    has_no_base(env, class)
        && has_no_virtual(&env.funcs, class)
        && has_no_constructor(&env.funcs, class)
}

/// Whether braces initialise objects of a type; arrays and aggregates.
pub fn braceable(env: &Env, at: At, ty: &Ty) -> Result<bool, ElabFault>
    ensures { Tells result (braceable_of (ctx_of env.now) at (form_in (typ_of ty.now))) }
{
    match &ty.shape {
        Shape::Array(_, _) => Ok(true),
        Shape::Class(class) => {
            let Some(_) = completion(env, *class) else {
                return Err(ill(at, IllRule::Incomplete));
            };
            if !is_aggregate_class(env, *class) {
                return Err(ill(at, IllRule::OutOfProfile));
            }
            Ok(true)
        }
        Shape::Void
        | Shape::Int(_)
        | Shape::Enum { .. }
        | Shape::Null
        | Shape::Ptr(_)
        | Shape::Ref(_)
        | Shape::Func(_)
        | Shape::Closure(_)
        | Shape::TxEx(_) => Err(ill(at, IllRule::OutOfProfile)),
    }
}

/// The offset of an element.
pub fn offset_of(index: u32, size: u32) -> Result<u32, AllocError>
    ensures { IfOk result (λ r. r ≡ index * size) }
{
    let Ok(offset) = u32::try_from(index as u64 * size as u64) else {
        return Err(AllocError);
    };
    Ok(offset)
}

// An element of an array.
fn element_part(
    alloc: Global,
    env: &Env,
    ty: &Ty,
    element: &Ty,
    index: u32,
) -> Result<ObjectPart, AllocError>
    ensures { IfOk result (λ p. part_of p ≡ record { offset = index * size_by (classes_of env.now.classes.items) (typ_of element.now); typ = qualified ty.now.is_const ty.now.is_volatile (typ_of element.now) }) }
{
    let size = size_of(env, element)?;
    let offset = offset_of(index, size)?;
    let ty = qualified_type(alloc, ty.is_const, ty.is_volatile, element)?;
    Ok(ObjectPart { offset, ty })
}

// The member of a class with an index.
fn member_at(env: &Env, class: u32, index: u32) -> Option<&MemberRec>
    ensures { MatchOption result (slice_get (members_in (slice_get (classes_of env.now.classes.items) class)) index ≡ None) (λ m. slice_get (members_in (slice_get (classes_of env.now.classes.items) class)) index ≡ Some (member_of m.now)) }
{
    class_at(env, class)?.members.get(index as usize)
}

// A member as a part of an object.
fn member_part(
    alloc: Global,
    env: &Env,
    ty: &Ty,
    class: u32,
    index: u32,
    member: &MemberRec,
) -> Result<ObjectPart, AllocError>
    ensures { IfOk result (λ p. part_of p ≡ record { offset = offset_by (classes_of env.now.classes.items) class index; typ = qualified ty.now.is_const ty.now.is_volatile (typ_of member.now.ty) }) }
{
    let offset = offset_at(env, class, index)?;
    let ty = qualified_type(alloc, ty.is_const, ty.is_volatile, &member.ty)?;
    Ok(ObjectPart { offset, ty })
}

/// The part of an object that the item of an index initialises.
pub fn part_in(
    alloc: Global,
    env: &Env,
    ty: &Ty,
    index: u32,
) -> Result<Option<ObjectPart>, AllocError>
    ensures { IfOk result (λ p. option_map part_of p ≡ part_in_of (ctx_of env.now) (typ_of ty.now) (form_in (typ_of ty.now)) index) }
{
    match &ty.shape {
        Shape::Array(element, count) => {
            if index >= *count {
                return Ok(None);
            }
            let part = element_part(alloc, env, ty, element, index)?;
            Ok(Some(part))
        }
        Shape::Class(class) => {
            let Some(member) = member_at(env, *class, index) else {
                return Ok(None);
            };
            let part = member_part(alloc, env, ty, *class, index, member)?;
            Ok(Some(part))
        }
        Shape::Void
        | Shape::Int(_)
        | Shape::Enum { .. }
        | Shape::Null
        | Shape::Ptr(_)
        | Shape::Ref(_)
        | Shape::Func(_)
        | Shape::Closure(_)
        | Shape::TxEx(_) => Ok(None),
    }
}

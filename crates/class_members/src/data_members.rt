// Data members (C++14 9.2).

ghost use Rattle.std.specs.Prelude.{◌≡◌, ◌++◌, ◌∷◌, [], IfOk, OnOk, List, map, length, slice_get};
ghost use Rattle.cpp_types.specs.Typ.{typ_of};
ghost use Rattle.cpp_types.specs.Class.{member_of};
ghost use Rattle.elab_init.specs.cpp_tree.Typing.{form_in};
ghost use Rattle.elab_init.specs.elab_ctx.Ctx.{ctx_of, Work, func_of};
ghost use Rattle.elab_init.specs.elab_ctx.Places.{passes};
ghost use Rattle.elab_init.specs.elab_ctx.Says.{Tells};
ghost use Rattle.elab_init.specs.elab_rules.Objects.{element_of};
ghost use Rattle.elab_init.specs.elab_rules.Types.{is_abstract_type};
ghost use Rattle.elab_init.specs.elab_rules.Statements.{Body};
ghost use Rattle.elab_init.specs.elab_rules.Classes.{member_form as member_form_of, has_member as has_member_of, has_function as has_function_of, index_if, data_member as data_member_of};
ghost use Rattle.class_members.specs.Shown.{reading, Answers};
ghost use Rattle.class_members.specs.Parts.{fits_member, is_named};

use crate::lists::keep_member;
use crate::records::Members;
use cpp_types::{At, MemberRec, Shape, Ty, copy};
use elab_init::below::{ElabFault, Env, FuncDecl, Functions, IllRule};
use elab_init::{element_type, ill};
use elab_sizes::typ_sized;
use elab_types::types::{has_auto, is_abstract, is_bounded, is_complete_type};
use std::alloc::{AllocError, Global};

// Whether members may be of a type as far as its form says.
fn member_form(at: At, ty: &Ty) -> Result<bool, ElabFault>
    ensures { Tells result (member_form_of at (form_in (typ_of ty.now))) }
{
    match &ty.shape {
        Shape::Void => Err(ill(at, IllRule::BadDeclaration)),
        Shape::Ref(_) => Err(ill(at, IllRule::OutOfProfile)),
        Shape::Int(_)
        | Shape::Enum { .. }
        | Shape::Null
        | Shape::Ptr(_)
        | Shape::Array(_, _)
        | Shape::Func(_)
        | Shape::Class(_)
        | Shape::Closure(_)
        | Shape::TxEx(_) => Ok(true),
    }
}

// Whether the elements of a type are of an abstract class.
fn has_abstract_elements(alloc: Global, env: &Env, ty: &Ty) -> Result<bool, AllocError>
    ensures { IfOk result (λ b. b ≡ is_abstract_type (ctx_of env.now) (element_of (typ_of ty.now))) }
{
    let element = element_type(alloc, ty)?;
    Ok(is_abstract(env, &element))
}

/// Whether a data member has the name.
pub fn has_member(members: &[MemberRec], name: &[u8]) -> bool
    ensures { result ≡ has_member_of name.now (map member_of members.now) }
{
    for member in members {
        if member.name.as_slice() == name {
            return true;
        }
    }
    false
}

// Whether a function is a member of a class under a name.
fn is_function_named(found: &FuncDecl, class: u32, name: &[u8]) -> bool
    ensures { result ≡ is_named class name.now (func_of found.now) }
{
    match found.class {
        Some(owner) => owner == class && found.rec.name.as_slice() == name,
        None => false,
    }
}

// Whether the function at a place is a member function of a class with a name.
fn is_named_at(funcs: &Functions, place: u32, class: u32, name: &[u8]) -> bool
    ensures { result ≡ passes (λ f. is_named class name.now (func_of f)) (slice_get funcs.now place) }
{
    match funcs.get(place as usize) {
        Some(found) => is_function_named(found, class, name),
        None => false,
    }
}

fn is_among(funcs: &Functions, class: u32, name: &[u8]) -> bool
    ensures { result ≡ has_function_of class name.now (map func_of funcs.now) }
{
    let members = funcs.of_class(class);
    for place in members {
        if is_named_at(funcs, *place, class, name) {
            return true;
        }
    }
    false
}

/// Whether a member function of a class has the name.
pub fn has_function(env: &Env, class: u32, name: &[u8]) -> bool
    ensures { result ≡ has_function_of class name.now (ctx_of env.now).funcs }
{
    is_among(&env.funcs, class, name)
}

// Whether a class may have a data member.
fn fits_class(
    alloc: Global,
    env: &Env,
    class: u32,
    members: &[MemberRec],
    at: At,
    name: &[u8],
    ty: &Ty,
) -> Result<bool, ElabFault>
    ensures { Tells result (fits_member (ctx_of env.now) class (map member_of members.now) at name.now (typ_of ty.now)) }
{
    member_form(at, ty)?;
    if has_auto(ty) {
        return Err(ill(at, IllRule::OutOfProfile));
    }
    if !is_bounded(ty) {
        return Err(ill(at, IllRule::BadDeclaration));
    }
    if !is_complete_type(env, ty) {
        return Err(ill(at, IllRule::Incomplete));
    }
    if has_abstract_elements(alloc, env, ty)? {
        return Err(ill(at, IllRule::AbstractObject));
    }
    typ_sized(env, at, ty)?;
    if has_member(members, name) || has_function(env, class, name) {
        return Err(ill(at, IllRule::Redeclared));
    }
    Ok(true)
}

// Keeps the place of a member that has an initialiser of its own.
fn keep_place(list: &mut Vec<u32>, has_initialiser: bool, place: usize) -> Result<(), AllocError>
    ensures { OnOk result (list.new.items ≡ list.old.items ++ index_if has_initialiser place) }
{
    if !has_initialiser {
        return Ok(());
    }
    let Ok(place) = u32::try_from(place) else {
        return Err(AllocError);
    };
    list.push(place)?;
    Ok(())
}

fn named_member(alloc: Global, name: &[u8], ty: &Ty) -> Result<MemberRec, AllocError>
    ensures { IfOk result (λ m. member_of m ≡ record { name = name.now; typ = typ_of ty.now }) }
{
    let name = Vec::from_slice(alloc, name)?;
    let ty = copy(alloc, ty)?;
    Ok(MemberRec { name, ty })
}

fn with_member(
    alloc: Global,
    members: &mut Members,
    name: &[u8],
    ty: &Ty,
    has_initialiser: bool,
) -> Result<(), AllocError>
    ensures members { OnOk result (map member_of members.new.members.items ≡ map member_of members.old.members.items ++ record { name = name.now; typ = typ_of ty.now } ∷ []) }
    ensures initialised { OnOk result (members.new.initialised.items ≡ members.old.initialised.items ++ index_if has_initialiser (length members.old.members.items)) }
{
    let place = members.members.len();
    keep_place(&mut members.initialised, has_initialiser, place)?;
    let member = named_member(alloc, name, ty)?;
    keep_member(&mut members.members, member)
}

/// A data member that is declared in a class.
pub fn data_member(
    alloc: Global,
    env: &Env,
    class: u32,
    members: &mut Members,
    at: At,
    name: &[u8],
    ty: &Ty,
    has_initialiser: bool,
) -> Result<(), ElabFault>
    ensures { (w : Work) (bodies : List Body) → Answers (reading (ctx_of env.now) w bodies members.new) result (data_member_of class (reading (ctx_of env.now) w bodies members.old) at name.now (typ_of ty.now) has_initialiser) }
{
    fits_class(alloc, env, class, &members.members, at, name, ty)?;
    with_member(alloc, members, name, ty, has_initialiser)?;
    Ok(())
}

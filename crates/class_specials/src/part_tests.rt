// What holds of the parts of a class (C++14 12.1, 12.4, 12.8).

ghost use Rattle.std.specs.Prelude.{◌≡◌, ◌&&◌, ◌||◌, not, ℕ, IfOk, map, slice_get};
ghost use Rattle.std.specs.List.{list_all, list_any};
ghost use Rattle.cpp_types.specs.Typ.{typ_of};
ghost use Rattle.cpp_types.specs.Class.{Member, member_of, held};
ghost use Rattle.cpp_types.specs.Conversion.{volatile_of};
ghost use Rattle.elab_init.specs.cpp_tree.Typing.{form_in};
ghost use Rattle.elab_init.specs.elab_ctx.Ctx.{ctx_of, func_of, special_of, Func};
ghost use Rattle.elab_init.specs.elab_ctx.Places.{passes};
ghost use Rattle.elab_init.specs.elab_rules.Initialising.{same_number};
ghost use Rattle.elab_init.specs.elab_rules.Objects.{traits_at as traits_at_of};
ghost use Rattle.elab_init.specs.elab_rules.Names.{is_const_typ};
ghost use Rattle.elab_init.specs.elab_rules.Statements.{is_trivial as is_trivial_of, is_const_element as is_const_element_of, has_written_default as has_written_default_of};
ghost use Rattle.elab_init.specs.elab_rules.Classes.{is_there as is_there_of, default_of_class as default_of_class_of, may_default_in, may_default as may_default_of, base_default as base_default_of, base_test, class_test, all_held as all_held_of, is_listed as is_listed_of, members_default as members_default_of, copies_member as copies_member_of, may_copy as may_copy_of, assigns_member as assigns_member_of, may_assign as may_assign_of, has_no_pointer as has_no_pointer_of, class_copied};
ghost use Rattle.class_members.specs.Shown.{home_of};
ghost use Rattle.class_specials.specs.Tests.{passes as passes_of, member_passes as member_passes_of};

use crate::places::is_member;
use class_members::overriding::base_slots;
use class_members::records::Home;
use cpp_types::copyability::held_class;
use cpp_types::{MemberRec, Shape, Ty};
use elab_init::below::{Env, FuncDecl, Functions, Special, Traits, function_at};
use elab_init::{element_type, traits_at};
use std::alloc::{AllocError, Global};

/// What is asked of a class that is a part.
#[derive(Clone, Copy)]
pub enum PartTest {
    TrivialDestructor,
    TrivialCopy,
    TrivialDefault,
    CopiesConst,
    CopiedByBytes,
    NotVolatile,
}

/// What is asked of a member.
#[derive(Clone, Copy)]
pub enum MemberTest {
    Copied,
    Assigned,
}

/// Whether a special member is there.
pub fn is_there(special: Special) -> bool
    ensures { result ≡ is_there_of (special_of special) }
{
    match special {
        Special::Absent => false,
        Special::Trivial | Special::Function(_) => true,
    }
}

fn is_trivial(special: Special) -> bool
    ensures { result ≡ is_trivial_of (special_of special) }
{
    match special {
        Special::Trivial => true,
        Special::Absent | Special::Function(_) => false,
    }
}

/// Whether values of a type have a part that is volatile, arrays taken as their elements.
pub fn is_volatile(ty: &Ty) -> bool
    ensures { result ≡ volatile_of (typ_of ty.now) }
{
    match &ty.shape {
        Shape::Array(element, _) => ty.is_volatile || is_volatile(element),
        Shape::Void
        | Shape::Int(_)
        | Shape::Enum { .. }
        | Shape::Null
        | Shape::Ptr(_)
        | Shape::Ref(_)
        | Shape::Func(_)
        | Shape::Class(_)
        | Shape::Closure(_)
        | Shape::TxEx(_) => ty.is_volatile,
    }
}

fn is_const_element(alloc: Global, ty: &Ty) -> Result<bool, AllocError>
    ensures { IfOk result (λ b. b ≡ is_const_element_of (typ_of ty.now)) }
{
    let element = element_type(alloc, ty)?;
    Ok(element.is_const)
}

// Whether a class passes.
fn passes(env: &Env, what: PartTest, class: u32) -> bool
    ensures { result ≡ passes_of what (ctx_of env.now) class }
{
    let traits = traits_at(env, class);
    match what {
        PartTest::TrivialDestructor => is_trivial(traits.destructor),
        PartTest::TrivialCopy => is_trivial(traits.copy),
        PartTest::TrivialDefault => is_trivial(traits.default),
        PartTest::CopiesConst => traits.copies_const,
        PartTest::CopiedByBytes => traits.is_trivially_copyable,
        PartTest::NotVolatile => !traits.is_volatile,
    }
}

fn part_passes(env: &Env, what: PartTest, class: Option<u32>) -> bool
    ensures { result ≡ class_test (passes_of what (ctx_of env.now)) class }
{
    match class {
        Some(found) => passes(env, what, found),
        None => true,
    }
}

fn base_passes(env: &Env, what: PartTest, base: Option<u32>) -> bool
    ensures { result ≡ base_test (passes_of what (ctx_of env.now)) base }
{
    match base {
        Some(found) => passes(env, what, found),
        None => true,
    }
}

fn members_pass(env: &Env, what: PartTest, members: &[MemberRec]) -> bool
    ensures { result ≡ list_all (λ (m : Member). class_test (passes_of what (ctx_of env.now)) (held m.typ)) (map member_of members.now) }
{
    for member in members {
        if !part_passes(env, what, held_class(&member.ty.shape)) {
            return false;
        }
    }
    true
}

/// Whether each class of which the base or a member holds objects passes.
pub fn all_held(env: &Env, what: PartTest, base: Option<u32>, members: &[MemberRec]) -> bool
    ensures { result ≡ all_held_of (passes_of what (ctx_of env.now)) base (map member_of members.now) }
{
    base_passes(env, what, base) && members_pass(env, what, members)
}

// Defaults

fn has_written_default(env: &Env, special: Special) -> bool
    ensures { result ≡ has_written_default_of (ctx_of env.now) (special_of special) }
{
    match special {
        Special::Function(place) => match function_at(env, place) {
            Some(found) => !found.implicit,
            None => true,
        },
        Special::Absent | Special::Trivial => false,
    }
}

fn default_of_class(env: &Env, is_const: bool, special: Special) -> bool
    ensures { result ≡ default_of_class_of (ctx_of env.now) is_const (special_of special) }
{
    if is_const {
        has_written_default(env, special)
    } else {
        is_there(special)
    }
}

fn class_defaults(env: &Env, is_const: bool, traits: Traits) -> bool
    ensures { result ≡ default_of_class_of (ctx_of env.now) is_const (special_of traits.default) && not traits.is_abstract }
{
    default_of_class(env, is_const, traits.default) && !traits.is_abstract
}

// Whether an object that is no array may be left without an initialiser.
fn element_defaults(env: &Env, ty: &Ty) -> bool
    ensures { result ≡ may_default_in (ctx_of env.now) (is_const_typ (typ_of ty.now)) (form_in (typ_of ty.now)) }
{
    match &ty.shape {
        Shape::Class(class) => class_defaults(env, ty.is_const, traits_at(env, *class)),
        Shape::TxEx(_) => false,
        Shape::Void
        | Shape::Int(_)
        | Shape::Enum { .. }
        | Shape::Null
        | Shape::Ptr(_)
        | Shape::Ref(_)
        | Shape::Array(_, _)
        | Shape::Func(_)
        | Shape::Closure(_) => !ty.is_const,
    }
}

fn may_default(alloc: Global, env: &Env, ty: &Ty) -> Result<bool, AllocError>
    ensures { IfOk result (λ b. b ≡ may_default_of (ctx_of env.now) (typ_of ty.now)) }
{
    let element = element_type(alloc, ty)?;
    Ok(element_defaults(env, &element))
}

fn base_default(env: &Env, base: Option<u32>) -> bool
    ensures { result ≡ base_default_of (ctx_of env.now) base }
{
    match base {
        Some(class) => is_there(traits_at(env, class).default),
        None => true,
    }
}

fn is_listed(place: usize, places: &[u32]) -> bool
    ensures { result ≡ is_listed_of place places.now }
{
    for found in places {
        if *found as usize == place {
            return true;
        }
    }
    false
}

// Whether a member may be left to itself where an object is made.
fn member_defaults(
    alloc: Global,
    env: &Env,
    initialised: &[u32],
    place: usize,
    ty: &Ty,
) -> Result<bool, AllocError>
    ensures { IfOk result (λ b. b ≡ (is_listed_of place initialised.now || may_default_of (ctx_of env.now) (typ_of ty.now))) }
{
    if is_listed(place, initialised) {
        return Ok(true);
    }
    may_default(alloc, env, ty)
}

fn members_default(
    alloc: Global,
    env: &Env,
    initialised: &[u32],
    members: &[MemberRec],
) -> Result<bool, AllocError>
    ensures { IfOk result (λ b. b ≡ members_default_of (ctx_of env.now) initialised.now 0 (map member_of members.now)) }
{
    for (i, member) in members.iter().enumerate() {
        if !member_defaults(alloc, env, initialised, i, &member.ty)? {
            return Ok(false);
        }
    }
    Ok(true)
}

/// Whether the base and each member may be left to themselves where an object is made.
pub fn all_default(
    alloc: Global,
    env: &Env,
    base: Option<u32>,
    initialised: &[u32],
    members: &[MemberRec],
) -> Result<bool, AllocError>
    ensures { IfOk result (λ b. b ≡ (base_default_of (ctx_of env.now) base && members_default_of (ctx_of env.now) initialised.now 0 (map member_of members.now))) }
{
    if !base_default(env, base) {
        return Ok(false);
    }
    members_default(alloc, env, initialised, members)
}

// Copies and assignments

fn copies_object(env: &Env, class: u32, is_const: bool, is_volatile: bool) -> bool
    ensures { result ≡ (is_there_of (traits_at_of (ctx_of env.now) class).copy && not is_volatile && (not is_const || (traits_at_of (ctx_of env.now) class).copies_const)) }
{
    let traits = traits_at(env, class);
    is_there(traits.copy) && !is_volatile && (!is_const || traits.copies_const)
}

/// Whether an object of this type, with its qualifiers, is copied as a part of another.
pub fn copies_member(alloc: Global, env: &Env, ty: &Ty) -> Result<bool, AllocError>
    ensures { IfOk result (λ b. b ≡ copies_member_of (ctx_of env.now) (typ_of ty.now) (held (typ_of ty.now))) }
{
    match held_class(&ty.shape) {
        Some(class) => {
            let is_const = is_const_element(alloc, ty)?;
            Ok(copies_object(env, class, is_const, is_volatile(ty)))
        }
        None => Ok(true),
    }
}

fn assigns_object(env: &Env, class: u32, is_const: bool, is_volatile: bool) -> bool
    ensures { result ≡ (not is_const && not is_volatile && (traits_at_of (ctx_of env.now) class).is_assignable) }
{
    !is_const && !is_volatile && traits_at(env, class).is_assignable
}

fn assigns_member(alloc: Global, env: &Env, ty: &Ty) -> Result<bool, AllocError>
    ensures { IfOk result (λ b. b ≡ assigns_member_of (ctx_of env.now) (typ_of ty.now) (held (typ_of ty.now))) }
{
    let is_const = is_const_element(alloc, ty)?;
    match held_class(&ty.shape) {
        Some(class) => Ok(assigns_object(env, class, is_const, is_volatile(ty))),
        None => Ok(!is_const),
    }
}

fn member_passes(
    alloc: Global,
    env: &Env,
    what: MemberTest,
    member: &MemberRec,
) -> Result<bool, AllocError>
    ensures { IfOk result (λ b. b ≡ member_passes_of what (ctx_of env.now) (member_of member.now)) }
{
    match what {
        MemberTest::Copied => copies_member(alloc, env, &member.ty),
        MemberTest::Assigned => assigns_member(alloc, env, &member.ty),
    }
}

fn all_pass(
    alloc: Global,
    env: &Env,
    what: MemberTest,
    members: &[MemberRec],
) -> Result<bool, AllocError>
    ensures { IfOk result (λ b. b ≡ list_all (member_passes_of what (ctx_of env.now)) (map member_of members.now)) }
{
    for member in members {
        if !member_passes(alloc, env, what, member)? {
            return Ok(false);
        }
    }
    Ok(true)
}

fn base_copied(env: &Env, base: Option<u32>) -> bool
    ensures { result ≡ base_test (class_copied (ctx_of env.now)) base }
{
    match base {
        Some(class) => is_there(traits_at(env, class).copy),
        None => true,
    }
}

/// Whether an implicit copy copies each part.
pub fn may_copy(
    alloc: Global,
    env: &Env,
    base: Option<u32>,
    members: &[MemberRec],
) -> Result<bool, AllocError>
    ensures { IfOk result (λ b. b ≡ may_copy_of (ctx_of env.now) base (map member_of members.now)) }
{
    if !base_copied(env, base) {
        return Ok(false);
    }
    all_pass(alloc, env, MemberTest::Copied, members)
}

fn base_assigned(env: &Env, base: Option<u32>) -> bool
    ensures { result ≡ base_test (λ (n : ℕ). (traits_at_of (ctx_of env.now) n).is_assignable) base }
{
    match base {
        Some(class) => traits_at(env, class).is_assignable,
        None => true,
    }
}

/// Whether an implicit assignment assigns each part.
pub fn may_assign(
    alloc: Global,
    env: &Env,
    base: Option<u32>,
    members: &[MemberRec],
) -> Result<bool, AllocError>
    ensures { IfOk result (λ b. b ≡ may_assign_of (ctx_of env.now) base (map member_of members.now)) }
{
    if !base_assigned(env, base) {
        return Ok(false);
    }
    all_pass(alloc, env, MemberTest::Assigned, members)
}

// Class pointers

fn is_virtual_member(found: &FuncDecl, class: u32) -> bool
    ensures { result ≡ (same_number class (func_of found.now).class && (func_of found.now).declared.is_virtual) }
{
    is_member(found, class) && found.rec.is_virtual
}

fn is_virtual_at(funcs: &Functions, place: u32, class: u32) -> bool
    ensures { result ≡ passes (λ f. same_number class (func_of f).class && (func_of f).declared.is_virtual) (slice_get funcs.now place) }
{
    match funcs.get(place as usize) {
        Some(found) => is_virtual_member(found, class),
        None => false,
    }
}

fn has_no_virtual(funcs: &Functions, class: u32) -> bool
    ensures { result ≡ not (list_any (λ (f : Func). same_number class f.class && f.declared.is_virtual) (map func_of funcs.now)) }
{
    let members = funcs.of_class(class);
    for place in members {
        if is_virtual_at(funcs, *place, class) {
            return false;
        }
    }
    true
}

/// Whether neither a class nor a base of it has a virtual function.
pub fn has_no_pointer(env: &Env, home: &Home) -> bool
    ensures { result ≡ has_no_pointer_of (ctx_of env.now) (home_of home.now) }
{
    has_no_virtual(&env.funcs, home.number) && base_slots(env, home.base).is_empty()
}

/// Whether a member has a part that is volatile.
pub fn has_volatile_member(members: &[MemberRec]) -> bool
    ensures { result ≡ list_any (λ (m : Member). volatile_of m.typ) (map member_of members.now) }
{
    for member in members {
        if is_volatile(&member.ty) {
            return true;
        }
    }
    false
}

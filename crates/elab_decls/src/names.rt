// Names of types: aliases (C++14 7.1.3), and enums with their enumerators (7.2).

ghost use Rattle.std.specs.Prelude.{◌≡◌, ◌<◌, List, map, length, true, Some, None, is_none, if◌then◌else◌, IfOk, OnOk, IfErr, Ok};
ghost use Rattle.elab_expr.specs.tx_ints.Words.{word_of};
ghost use Rattle.cpp_types.specs.Typ.{typ_of, enum};
ghost use Rattle.elab_expr.specs.cpp_names.Names.{innermost_of};
ghost use Rattle.elab_expr.specs.cpp_names.declared.entity.EntityKind.TheVariants as entities;
ghost use Rattle.elab_expr.specs.cpp_tree.Notation.{plain};
ghost use Rattle.elab_expr.specs.elab_ctx.Ctx.{Work, ctx_of, enumerator_of};
ghost use Rattle.elab_expr.specs.elab_ctx.Says.{Faults, Tells};
ghost use Rattle.elab_expr.specs.elab_rules.Values.{int_type as type_of_int};
ghost use Rattle.elab_expr.specs.elab_rules.Types.{type_named as type_called};
ghost use Rattle.elab_expr.specs.elab_rules.Expressions.{scope_name as name_in_scope};
ghost use Rattle.elab_expr.specs.elab_rules.Statements.{Body};
ghost use Rattle.elab_expr.specs.elab_rules.Globals.{type_agrees as agrees, with_type as with_type_of, alias_declared as alias, enumerator_made as enumerator, closed_enum, typed_from};
ghost use Rattle.elab_expr.specs.elab_types.Shown.{Says};
ghost use Rattle.elab_decls.specs.Says.{changed, counted, declared_as, is_fresh_type, more_enumerators, named_again, with_names, with_typ};

use crate::declarations::declare;
use cpp_types::{At, Shape, Ty, copy, equal_types};
use elab_expr::below::{
    ElabFault, Entity, EntityKind, EnumRec, Env, IllRule, IntKind, has_auto, ill, type_named,
    word_of,
};
use elab_sizes::typ_sized;
use std::alloc::{AllocError, Global};

// Tests that a name that stands for a type already stands for this one.
fn type_agrees(env: &Env, at: At, name: &[u8], ty: &Ty) -> Result<bool, ElabFault>
    ensures { Tells result (agrees at (typ_of ty.now) (type_called name.now (ctx_of env.now).types)) }
{
    let Some(found) = type_named(&env.types, name) else {
        return Ok(true);
    };
    if !equal_types(ty, found) {
        return Err(ill(at, IllRule::Redeclared));
    }
    Ok(true)
}

/// A name of a type, among those that are known.
pub fn with_type(alloc: Global, env: &mut Env, name: &[u8], ty: &Ty) -> Result<(), AllocError>
    ensures { OnOk result (ctx_of env.new ≡ with_type_of (ctx_of env.old) name.now (typ_of ty.now)) }
{
    let name = Vec::from_slice(alloc, name)?;
    let ty = copy(alloc, ty)?;
    env.types.add(name, ty)?;
    Ok(())
}

/// An alias of a type.
pub fn alias_declared(
    alloc: Global,
    env: &mut Env,
    at: At,
    name: &[u8],
    ty: &Ty,
) -> Result<(), ElabFault>
    ensures done { (w : Work) (bodies : List Body) → OnOk result (alias (changed (ctx_of env.old) w bodies) at name.now (typ_of ty.now) ≡ Ok (changed (ctx_of env.new) w bodies)) }
    ensures fault { (w : Work) (bodies : List Body) → IfErr result (λ e. Faults e (alias (changed (ctx_of env.old) w bodies) at name.now (typ_of ty.now))) }
{
    if has_auto(ty) {
        return Err(ill(at, IllRule::OutOfProfile));
    }
    let _ = typ_sized(env, at, ty)?;
    let _ = type_agrees(env, at, name, ty)?;
    with_type(alloc, env, name, ty)?;
    Ok(())
}

// The type of an enumerator inside the braces.
fn int_type() -> Ty
    ensures { typ_of result ≡ type_of_int }
{
    Ty {
        shape: Shape::Int(IntKind::Int),
        is_const: false,
        is_volatile: false,
    }
}

// Gives an enumerator a name that stands for nothing yet.
fn declare_enumerator(env: &mut Env, name: &[u8], id: u32) -> Result<Option<Entity>, AllocError>
    ensures found { IfOk result (λ old. old ≡ innermost_of env.old.scopes name.now) }
    ensures behind { IfOk result (λ old. ctx_of env.new ≡ declared_as old (ctx_of env.old) name.now (record { kind = entities.Enumerator; id = id })) }
{
    let entity = Entity {
        kind: EntityKind::Enumerator,
        id,
    };
    declare(env, name, entity)
}

/// How many enumerators are known.
pub fn count_enumerators(env: &Env) -> Result<u32, AllocError>
    ensures { IfOk result (λ n. n ≡ length (ctx_of env.now).enumerators) }
{
    let Ok(count) = u32::try_from(env.enumerators.len()) else {
        return Err(AllocError);
    };
    Ok(count)
}

// One more enumerator, known by a name, unless that stands for something.
fn add_enumerator(env: &mut Env, name: &[u8], word: u64) -> Result<bool, AllocError>
    ensures free { IfOk result (λ b. b ≡ is_none (innermost_of env.old.scopes name.now)) }
    ensures behind { IfOk result (λ b. b ≡ true → ctx_of env.new ≡ more_enumerators (ctx_of env.old) name.now word) }
{
    let id = count_enumerators(env)?;
    if declare_enumerator(env, name, id)?.is_some() {
        return Ok(false);
    }
    env.enumerators.push(EnumRec {
        ty: int_type(),
        word,
    })?;
    Ok(true)
}

// A second name of the last enumerator. That no name is the name of two counts as want of memory.
fn name_again(env: &mut Env, name: &[u8]) -> Result<(), AllocError>
    ensures { OnOk result (ctx_of env.new ≡ named_again (ctx_of env.old) name.now) }
{
    let count = count_enumerators(env)?;
    let id = if count == 0 { 0 } else { count - 1 };
    if declare_enumerator(env, name, id)?.is_some() {
        return Err(AllocError);
    }
    Ok(())
}

// An enumerator with its names, unless the first of them stands for something.
fn add_names(
    env: &mut Env,
    scoped: bool,
    name: &[u8],
    long_name: &[u8],
    word: u64,
) -> Result<bool, AllocError>
    ensures free { IfOk result (λ b. b ≡ is_none (innermost_of env.old.scopes (if scoped then long_name.now else name.now))) }
    ensures behind { IfOk result (λ b. b ≡ true → ctx_of env.new ≡ with_names scoped (ctx_of env.old) name.now long_name.now word) }
{
    if scoped {
        return add_enumerator(env, long_name, word);
    }
    if !add_enumerator(env, name, word)? {
        return Ok(false);
    }
    name_again(env, long_name)?;
    Ok(true)
}

// The name of an enumerator in its enum.
fn scope_name(alloc: Global, owner: &[u8], name: &[u8]) -> Result<Vec<u8>, AllocError>
    ensures { IfOk result (λ text. text.items ≡ name_in_scope owner.now name.now) }
{
    let mut text = Vec::from_slice(alloc, owner)?;
    text.extend_from_slice(b"::")?;
    text.extend_from_slice(name)?;
    Ok(text)
}

/// An enumerator of an enum, with its value at a place of its own; the answer is the value of the next.
pub fn enumerator_made(
    alloc: Global,
    env: &mut Env,
    scoped: bool,
    owner: &[u8],
    at: At,
    place: At,
    name: &[u8],
    value: i128,
) -> Result<i128, ElabFault>
    ensures { (w : Work) (bodies : List Body) → Says (counted (ctx_of env.new) w bodies) result (enumerator scoped owner.now (changed (ctx_of env.old) w bodies) at place name.now value) }
{
    if !IntKind::Int.has(value) {
        return Err(ill(place, IllRule::Narrowing));
    }
    let long_name = scope_name(alloc, owner, name)?;
    if !add_names(env, scoped, name, &long_name, word_of(value))? {
        return Err(ill(at, IllRule::Redeclared));
    }
    Ok(value + 1)
}

// Tests that a name is that of no type.
fn is_fresh_type(env: &Env, at: At, name: &[u8]) -> Result<bool, ElabFault>
    ensures { Tells result (is_fresh_type at (type_called name.now (ctx_of env.now).types)) }
{
    if type_named(&env.types, name).is_some() {
        return Err(ill(at, IllRule::Redeclared));
    }
    Ok(true)
}

/// The name of an enum, which is that of no type yet.
pub fn enum_named(
    alloc: Global,
    env: &mut Env,
    at: At,
    name: &[u8],
    scoped: bool,
) -> Result<(), ElabFault>
    ensures done { OnOk result (type_called name.now (ctx_of env.old).types ≡ None) }
    ensures behind { OnOk result (ctx_of env.new ≡ with_type_of (ctx_of env.old) name.now (plain (enum name.now scoped))) }
    ensures fault { IfErr result (λ e. Faults e (is_fresh_type at (type_called name.now (ctx_of env.old).types))) }
{
    let _ = is_fresh_type(env, at, name)?;
    let ty = enum_type(alloc, name, scoped)?;
    with_type(alloc, env, name, &ty)?;
    Ok(())
}

/// The type of an enum.
pub fn enum_type(alloc: Global, name: &[u8], scoped: bool) -> Result<Ty, AllocError>
    ensures { IfOk result (λ t. typ_of t ≡ plain (enum name.now scoped)) }
{
    let name = Vec::from_slice(alloc, name)?;
    Ok(Ty {
        shape: Shape::Enum { name, scoped },
        is_const: false,
        is_volatile: false,
    })
}

// Gives the enumerator at a place a type, if there is one.
fn retype(alloc: Global, list: &mut Vec<EnumRec>, i: usize, ty: &Ty) -> Result<(), AllocError>
    ensures { OnOk result (map enumerator_of list.new.items ≡ with_typ (map enumerator_of list.old.items) i (typ_of ty.now)) }
{
    if i >= list.len() {
        return Ok(());
    }
    let ty = copy(alloc, ty)?;
    list[i].ty = ty;
    Ok(())
}

// Gives the enumerators of a list from a place on a type.
fn retype_from(alloc: Global, list: &mut Vec<EnumRec>, from: u32, ty: &Ty) -> Result<(), AllocError>
    ensures { OnOk result (map enumerator_of list.new.items ≡ typed_from from (typ_of ty.now) (map enumerator_of list.old.items)) }
{
    for i in from as usize..list.len() {
        retype(alloc, list, i, ty)?;
    }
    Ok(())
}

/// Gives the enumerators from a place on the type of their enum.
pub fn close_enum(alloc: Global, env: &mut Env, from: u32, ty: &Ty) -> Result<(), AllocError>
    ensures { (w : Work) (bodies : List Body) → OnOk result (changed (ctx_of env.new) w bodies ≡ closed_enum from (typ_of ty.now) (changed (ctx_of env.old) w bodies)) }
{
    retype_from(alloc, &mut env.enumerators, from, ty)
}

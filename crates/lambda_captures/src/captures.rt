// Captures (C++14 5.1.2 p8 to p15).

ghost use Rattle.std.specs.Prelude.{◌≡◌, ◌++◌, ◌∷◌, [], map, IfOk, OnOk};
ghost use Rattle.elab_init.specs.cpp_types.Typ.{typ_of, ref};
ghost use Rattle.elab_init.specs.cpp_tree.Notation.{plain};
ghost use Rattle.elab_init.specs.cpp_tree.Typing.{form_in};
ghost use Rattle.elab_init.specs.elab_ctx.Ctx.{ctx_of, special_of, capture_of};
ghost use Rattle.elab_init.specs.elab_rules.Statements.{is_trivial as is_trivial_of};
ghost use Rattle.elab_init.specs.elab_rules.Lambdas.{copied_as as copied_as_of, captured_as as captured_as_of, copies_closure as copies_closure_of, copies_elements as copies_elements_of, is_captured as is_captured_of, variable_type as variable_type_of, capture_variable as capture_variable_of, capture_this as capture_this_of, capture_used as capture_used_of, captured_uses};
ghost use Rattle.lambda_captures.specs.Shown.{used_of};
ghost use Rattle.lambda_captures.specs.Steps.{capturable as capturable_of, capture_typed as capture_typed_of, capture_once};
ghost use Rattle.lambda_captures.specs.Says.{Collects, Knows, Passes};

use crate::scanning::Used;
use class_specials::part_tests::copies_member;
use elab_init::below::{
    At, Capture, ElabFault, Env, IllRule, Shape, Special, Ty, copy, pointer_to,
};
use elab_init::{referred_type, traits_at};
use elab_names::captures::is_same_variable;
use elab_names::parts::plain_type;
use elab_types::specifiers::ill;
use elab_types::types::is_complete_type;
use std::alloc::{AllocError, Global};

// A reference to a type.
fn reference_to(alloc: Global, ty: &Ty) -> Result<Ty, AllocError>
    ensures { IfOk result (λ t. typ_of t ≡ plain (ref (typ_of ty.now))) }
{
    let target = Box::new(alloc, copy(alloc, ty)?)?;
    Ok(plain_type(Shape::Ref(target)))
}

// The member of a capture by copy: a reference to a function stays one.
fn copied_as(alloc: Global, ty: &Ty) -> Result<Ty, AllocError>
    ensures { IfOk result (λ t. typ_of t ≡ copied_as_of (typ_of ty.now)) }
{
    match &ty.shape {
        Shape::Func(_) => reference_to(alloc, ty),
        Shape::Void
        | Shape::Int(_)
        | Shape::Enum { .. }
        | Shape::Null
        | Shape::Ptr(_)
        | Shape::Ref(_)
        | Shape::Array(_, _)
        | Shape::Class(_)
        | Shape::Closure(_)
        | Shape::TxEx(_) => copy(alloc, ty),
    }
}

// The member of a capture: a copy of the object, or a reference to it.
fn captured_as(alloc: Global, by_ref: bool, ty: &Ty) -> Result<Ty, AllocError>
    ensures { IfOk result (λ t. typ_of t ≡ captured_as_of by_ref (typ_of ty.now)) }
{
    let object = referred_type(ty);
    if by_ref {
        return reference_to(alloc, object);
    }
    copied_as(alloc, object)
}

fn is_trivial(special: Special) -> bool
    ensures { result ≡ is_trivial_of (special_of special) }
{
    match special {
        Special::Trivial => true,
        Special::Absent | Special::Function(_) => false,
    }
}

// Whether an object of a type may be captured by copy: a lambda's only where it is copied byte by byte (profile).
fn copies_closure(env: &Env, ty: &Ty) -> bool
    ensures { result ≡ copies_closure_of (ctx_of env.now) (form_in (typ_of ty.now)) }
{
    match &ty.shape {
        Shape::Closure(class) => is_trivial(traits_at(env, *class).copy),
        Shape::Void
        | Shape::Int(_)
        | Shape::Enum { .. }
        | Shape::Null
        | Shape::Ptr(_)
        | Shape::Ref(_)
        | Shape::Array(_, _)
        | Shape::Func(_)
        | Shape::Class(_)
        | Shape::TxEx(_) => true,
    }
}

/// Whether a variable, or `this`, is captured.
pub fn is_captured(captures: &[Capture], variable: Option<u32>) -> bool
    ensures { result ≡ is_captured_of variable (map capture_of captures.now) }
{
    for found in captures {
        if is_same_variable(variable, found.variable) {
            return true;
        }
    }
    false
}

fn keep_capture(captures: &mut Vec<Capture>, capture: Capture) -> Result<(), AllocError>
    ensures { OnOk result (map capture_of captures.new.items ≡ map capture_of captures.old.items ++ capture_of capture ∷ []) }
{
    captures.push(capture)?;
    Ok(())
}

// The type of a variable, which is known behind its initialiser.
fn variable_type(env: &Env, at: At, variable: u32) -> Result<&Ty, ElabFault>
    ensures { Knows result (variable_type_of (ctx_of env.now) at variable) }
{
    let Some(found) = env.variables.get(variable as usize) else {
        return Err(ill(at, IllRule::UnknownName));
    };
    match &found.ty {
        Some(ty) => Ok(ty),
        None => Err(ill(at, IllRule::BadInit)),
    }
}

// Whether each element of an array is copied; another type has none.
fn copies_elements(alloc: Global, env: &Env, ty: &Ty) -> Result<bool, AllocError>
    ensures { IfOk result (λ b. b ≡ copies_elements_of (ctx_of env.now) (typ_of ty.now)) }
{
    match &ty.shape {
        Shape::Array(element, _) => copies_member(alloc, env, element),
        Shape::Void
        | Shape::Int(_)
        | Shape::Enum { .. }
        | Shape::Null
        | Shape::Ptr(_)
        | Shape::Ref(_)
        | Shape::Func(_)
        | Shape::Class(_)
        | Shape::Closure(_)
        | Shape::TxEx(_) => Ok(true),
    }
}

// A variable of this type is captured by reference, or its object is complete and can be copied.
fn capturable(alloc: Global, env: &Env, at: At, by_ref: bool, ty: &Ty) -> Result<(), ElabFault>
    ensures { Passes result (capturable_of (ctx_of env.now) at by_ref (typ_of ty.now)) }
{
    if by_ref {
        return Ok(());
    }
    let object = referred_type(ty);
    if !copies_closure(env, object) {
        return Err(ill(at, IllRule::OutOfProfile));
    }
    if !is_complete_type(env, object) {
        return Err(ill(at, IllRule::Incomplete));
    }
    if !copies_elements(alloc, env, object)? {
        return Err(ill(at, IllRule::NoCopy));
    }
    Ok(())
}

// One more capture: of a variable of a type.
fn capture_typed(
    alloc: Global,
    env: &Env,
    captures: &mut Vec<Capture>,
    at: At,
    variable: u32,
    by_ref: bool,
    ty: &Ty,
) -> Result<(), ElabFault>
    ensures { Collects captures.new.items result (capture_typed_of (ctx_of env.now) (map capture_of captures.old.items) at variable by_ref (typ_of ty.now)) }
{
    capturable(alloc, env, at, by_ref, ty)?;
    let ty = captured_as(alloc, by_ref, ty)?;
    keep_capture(
        captures,
        Capture {
            variable: Some(variable),
            by_ref,
            ty,
            at,
        },
    )?;
    Ok(())
}

/// One more capture: of a variable.
pub fn capture_variable(
    alloc: Global,
    env: &Env,
    captures: &mut Vec<Capture>,
    at: At,
    variable: u32,
    by_ref: bool,
) -> Result<(), ElabFault>
    ensures { Collects captures.new.items result (capture_variable_of (ctx_of env.now) (map capture_of captures.old.items) at variable by_ref) }
{
    let ty = variable_type(env, at, variable)?;
    capture_typed(alloc, env, captures, at, variable, by_ref, ty)
}

/// One more capture: of `this`.
pub fn capture_this(
    alloc: Global,
    env: &Env,
    captures: &mut Vec<Capture>,
    at: At,
) -> Result<(), ElabFault>
    ensures { Collects captures.new.items result (capture_this_of (ctx_of env.now) (map capture_of captures.old.items) at) }
{
    let Some(this) = &env.this else {
        return Err(ill(at, IllRule::Capture));
    };
    let ty = pointer_to(alloc, copy(alloc, &this.ty)?)?;
    keep_capture(
        captures,
        Capture {
            variable: None,
            by_ref: false,
            ty,
            at,
        },
    )?;
    Ok(())
}

// What is named is captured: a variable, or `this`, where there is one.
fn capture_used(
    alloc: Global,
    env: &Env,
    captures: &mut Vec<Capture>,
    by_ref: bool,
    used: Used,
) -> Result<(), ElabFault>
    ensures { Collects captures.new.items result (capture_used_of (ctx_of env.now) by_ref (map capture_of captures.old.items) used.at used.variable) }
{
    match used.variable {
        Some(variable) => capture_variable(alloc, env, captures, used.at, variable, by_ref),
        None => {
            if env.this.is_none() {
                return Ok(());
            }
            capture_this(alloc, env, captures, used.at)
        }
    }
}

// The same, unless it is captured.
fn capture_once(
    alloc: Global,
    env: &Env,
    captures: &mut Vec<Capture>,
    by_ref: bool,
    used: Used,
) -> Result<(), ElabFault>
    ensures { Collects captures.new.items result (capture_once (ctx_of env.now) by_ref (map capture_of captures.old.items) used.at used.variable) }
{
    if is_captured(captures, used.variable) {
        return Ok(());
    }
    capture_used(alloc, env, captures, by_ref, used)
}

/// What is named is captured, in the order of its first use.
pub fn capture_uses(
    alloc: Global,
    env: &Env,
    captures: &mut Vec<Capture>,
    by_ref: bool,
    used: &[Used],
) -> Result<(), ElabFault>
    ensures { Collects captures.new.items result (captured_uses (ctx_of env.now) by_ref (map capture_of captures.old.items) (map used_of used.now)) }
{
    for found in used {
        capture_once(alloc, env, captures, by_ref, *found)?;
    }
    Ok(())
}

// The same capture once more.
fn copy_capture(alloc: Global, capture: &Capture) -> Result<Capture, AllocError>
    ensures { IfOk result (λ x. capture_of x ≡ capture_of capture.now) }
{
    let ty = copy(alloc, &capture.ty)?;
    Ok(Capture {
        variable: capture.variable,
        by_ref: capture.by_ref,
        ty,
        at: capture.at,
    })
}

/// The same captures once more.
pub fn copy_captures(alloc: Global, captures: &[Capture]) -> Result<Vec<Capture>, AllocError>
    ensures { IfOk result (λ v. map capture_of v.items ≡ map capture_of captures.now) }
{
    let mut list = Vec::new(alloc);
    for found in captures {
        let made = copy_capture(alloc, found)?;
        keep_capture(&mut list, made)?;
    }
    Ok(list)
}

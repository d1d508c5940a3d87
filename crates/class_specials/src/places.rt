// Special members that are written, by their places among the functions of the unit (C++14 clause 12).

ghost use Rattle.std.specs.Prelude.{◌≡◌, false, IfOk, map, slice_get};
ghost use Rattle.cpp_types.specs.Typ.{typ_of, typs_of, signature_of, typ, class as class_form, none as no_typs, more as and_typ};
ghost use Rattle.cpp_types.specs.Equal.{typ_eq, typs_eq};
ghost use Rattle.cpp_types.specs.Trivial.{is_copy_constructor as is_copy_constructor_of};
ghost use Rattle.cpp_types.specs.Class.{function_of};
ghost use Rattle.elab_init.specs.elab_ctx.Ctx.{ctx_of, func_of};
ghost use Rattle.elab_init.specs.elab_ctx.Places.{passes};
ghost use Rattle.elab_init.specs.elab_rules.Initialising.{signature_parameters, is_constructor as is_constructor_of, same_number as same_number_of};
ghost use Rattle.elab_init.specs.elab_rules.Functions.{first_from};
ghost use Rattle.elab_init.specs.elab_rules.Classes.{own_reference, is_copy_from as is_copy_from_of, written_copy as written_copy_of};
ghost use Rattle.class_members.specs.Shown.{home_of};
ghost use Rattle.class_specials.specs.Tests.{is_wanted as is_wanted_of};

use class_members::overriding::same_flag;
use class_members::records::Home;
use class_members::same_kind;
use cpp_types::copyability::{is_name, takes_only};
use cpp_types::{FnTy, FuncRec, Shape, Ty, equal_lists};
use elab_init::below::{Env, FuncDecl, FuncKind, Functions};
use std::alloc::AllocError;

/// What function is looked for.
#[derive(Clone, Copy)]
pub enum Wanted {
    Destructor,
    /// A constructor from a `const` object of the class.
    CopyOfConst,
    /// Any copy constructor.
    Copy,
    /// The constructor without arguments.
    Default,
    Constructor,
}

/// Whether a function is a member of a class.
pub fn is_member(found: &FuncDecl, class: u32) -> bool
    ensures { result ≡ same_number_of class (func_of found.now).class }
{
    match found.class {
        Some(owner) => owner == class,
        None => false,
    }
}

fn is_constructor(found: &FuncDecl, class: u32) -> bool
    ensures { result ≡ is_constructor_of class (func_of found.now) }
{
    is_member(found, class)
        && match found.kind {
            FuncKind::Constructor => true,
            FuncKind::Plain | FuncKind::Destructor | FuncKind::ClosureCall => false,
        }
}

// Whether a type is a reference to an object of a class, with this `const`.
fn is_own_reference(ty: &Ty, class: u32, is_const: bool) -> bool
    ensures { result ≡ typ_eq (typ_of ty.now) (own_reference class is_const) }
{
    match &ty.shape {
        Shape::Ref(target) => {
            same_flag(ty.is_const, false)
                && same_flag(ty.is_volatile, false)
                && is_object_of(target, class, is_const)
        }
        Shape::Void
        | Shape::Int(_)
        | Shape::Enum { .. }
        | Shape::Null
        | Shape::Ptr(_)
        | Shape::Array(_, _)
        | Shape::Func(_)
        | Shape::Class(_)
        | Shape::Closure(_)
        | Shape::TxEx(_) => false,
    }
}

// Whether a type is that of objects of a class, with this `const`.
fn is_object_of(ty: &Ty, class: u32, is_const: bool) -> bool
    ensures { result ≡ typ_eq (typ_of ty.now) (typ (class_form class) is_const false) }
{
    match &ty.shape {
        Shape::Class(found) => {
            same_flag(ty.is_const, is_const) && same_flag(ty.is_volatile, false) && *found == class
        }
        Shape::Void
        | Shape::Int(_)
        | Shape::Enum { .. }
        | Shape::Null
        | Shape::Ptr(_)
        | Shape::Ref(_)
        | Shape::Array(_, _)
        | Shape::Func(_)
        | Shape::Closure(_)
        | Shape::TxEx(_) => false,
    }
}

fn is_only_own_reference(types: &[Ty], class: u32, is_const: bool) -> bool
    ensures { result ≡ typs_eq (typs_of types.now) (and_typ (own_reference class is_const) no_typs) }
{
    types.len() == 1 && is_own_reference(&types[0], class, is_const)
}

// Whether a function takes a reference to an object of a class, with this `const`, and nothing else.
#[tactic(auto, using(cpp_types::proofs::Views::signature_view))]
fn takes_reference(function: &FnTy, class: u32, is_const: bool) -> bool
    ensures { result ≡ typs_eq (signature_parameters (signature_of function.now)) (and_typ (own_reference class is_const) no_typs) }
{
    is_only_own_reference(&function.params, class, is_const)
}

#[tactic(auto, using(cpp_types::proofs::Views::signature_view))]
fn takes_nothing(function: &FnTy) -> bool
    ensures { result ≡ typs_eq (signature_parameters (signature_of function.now)) no_typs }
{
    equal_lists(&function.params, &[])
}

/// Whether a function is a copy constructor of a class with this name.
pub fn is_copy_constructor(function: &FuncRec, class: u32, name: &[u8]) -> bool
    ensures { result ≡ is_copy_constructor_of class name.now (function_of function.now) }
{
    is_name(&function.name, name) && takes_only(&function.ty, class)
}

/// Whether a function is a constructor from an object of its class that has this `const`.
pub fn is_copy_from(found: &FuncDecl, class: u32, is_const: bool) -> bool
    ensures { result ≡ is_copy_from_of class is_const (func_of found.now) }
{
    is_constructor(found, class) && takes_reference(&found.rec.ty, class, is_const)
}

// Whether a function is what is looked for.
fn is_wanted(what: Wanted, home: &Home, found: &FuncDecl) -> bool
    ensures { result ≡ is_wanted_of what (home_of home.now) (func_of found.now) }
{
    let class = home.number;
    match what {
        Wanted::Destructor => is_member(found, class)
            && same_kind(found.kind, FuncKind::Destructor),
        Wanted::CopyOfConst => is_copy_from(found, class, true),
        Wanted::Copy => {
            is_constructor(found, class) && is_copy_constructor(&found.rec, class, &home.name)
        }
        Wanted::Default => is_constructor(found, class) && takes_nothing(&found.rec.ty),
        Wanted::Constructor => is_constructor(found, class),
    }
}

// Whether the function at a place is the one that is looked for.
fn is_wanted_at(funcs: &Functions, place: u32, home: &Home, what: Wanted) -> bool
    ensures { result ≡ passes (λ f. is_wanted_of what (home_of home.now) (func_of f)) (slice_get funcs.now place) }
{
    match funcs.get(place as usize) {
        Some(found) => is_wanted(what, home, found),
        None => false,
    }
}

fn first_place(funcs: &Functions, home: &Home, what: Wanted) -> Option<u32>
    ensures { result ≡ first_from (is_wanted_of what (home_of home.now)) 0 (map func_of funcs.now) }
{
    let members = funcs.of_class(home.number);
    for place in members {
        if is_wanted_at(funcs, *place, home, what) {
            return Some(*place);
        }
    }
    None
}

/// The first function of a class that is looked for.
pub fn written(env: &Env, home: &Home, what: Wanted) -> Result<Option<u32>, AllocError>
    ensures { IfOk result (λ o. o ≡ first_from (is_wanted_of what (home_of home.now)) 0 (ctx_of env.now).funcs) }
{
    Ok(first_place(&env.funcs, home, what))
}

/// The copy constructor that is written: one that takes `const` objects before others.
pub fn written_copy(env: &Env, home: &Home) -> Result<Option<u32>, AllocError>
    ensures { IfOk result (λ o. o ≡ written_copy_of (ctx_of env.now) (home_of home.now)) }
{
    match written(env, home, Wanted::CopyOfConst)? {
        Some(place) => Ok(Some(place)),
        None => written(env, home, Wanted::Copy),
    }
}

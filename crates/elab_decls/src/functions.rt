// Functions that are declared, and declarations that agree (C++14 3.5, 3.6.1, 7.1.1, 7.1.2, 8.3.5; the TS, [dcl.fct]).

ghost use Rattle.std.specs.Prelude.{◌≡◌, ◌&&◌, ◌||◌, not, map, length, codes, is_some, is_none, IfOk, OnOk};
ghost use Rattle.std.specs.Str.{bytes_eq};
ghost use Rattle.elab_expr.specs.tx_ints.declared.kinds.IntKind.TheVariants.{Int};
ghost use Rattle.cpp_types.specs.Typ.{int, typ_of, signature_of};
ghost use Rattle.cpp_types.specs.Equal.{typ_eq};
ghost use Rattle.elab_expr.specs.cpp_tree.Notation.{plain};
ghost use Rattle.elab_expr.specs.elab_ctx.Steps.{check as check_of};
ghost use Rattle.elab_expr.specs.elab_rules.Initialising.{signature_parameters, signature_result};
ghost use Rattle.cpp_types.specs.Class.{function_of};
ghost use Rattle.elab_expr.specs.cpp_tree.Units.{param_of};
ghost use Rattle.elab_expr.specs.elab_ctx.Ctx.{ctx_of, func_of};
ghost use Rattle.elab_expr.specs.elab_ctx.Says.{Tells};
ghost use Rattle.elab_expr.specs.elab_rules.Functions.{safety_of as safety_of_of, same_safety as same_safety_of, linkage_of as linkage_of_of, is_internal as is_internal_of, agrees as agrees_of, param_of as declared_param, function_record as function_record_of, new_function as new_function_of, main_fits as main_fits_of, is_main_type as is_main_type_of, is_none_typs, may_be_c as may_be_c_of, is_function_entity as is_function_entity_of, name_declared as name_declared_of, function_declared as function_declared_of, with_definition as with_definition_of};
ghost use Rattle.elab_expr.specs.elab_types.Shown.{Says, parameter_of, qualifiers_of};
ghost use Rattle.class_members.specs.Shown.{Answers, header_of, storage_of};
ghost use Rattle.elab_decls.specs.Says.{with_exceptions, words_fit as words_fit_of, newly_declared, placed_at};

use crate::declarations::declare;
use class_members::lists::{add_function, keep_param};
use class_members::overriding::same_flag;
use class_members::{Header, Storage, first_same, header_sized};
use cpp_types::{At, FnTy, FuncRec, Safety, Shape, Ty, copy, copy_function, equal_types};
use elab_expr::below::{
    ElabFault, Entity, EntityKind, Env, FuncDecl, IllRule, IntKind, Linkage, OverrideRule,
    Parameter, Qualifiers, TParam, ill,
};
use std::alloc::{AllocError, Global};

fn safety_of(qualifiers: Qualifiers) -> Safety
    ensures { result ≡ safety_of_of (qualifiers_of qualifiers) }
{
    if qualifiers.is_dynamic {
        Safety::Dynamic
    } else if qualifiers.is_safe {
        Safety::Safe
    } else {
        Safety::None
    }
}

fn same_safety(a: Safety, b: Safety) -> bool
    ensures { result ≡ same_safety_of a b }
{
    match a {
        Safety::None => matches!(b, Safety::None),
        Safety::Safe => matches!(b, Safety::Safe),
        Safety::Dynamic => matches!(b, Safety::Dynamic),
    }
}

fn linkage_of(storage: Storage) -> Linkage
    ensures { result ≡ linkage_of_of (storage_of storage) }
{
    if storage.is_static {
        Linkage::Internal
    } else if storage.is_inline {
        Linkage::Inline
    } else {
        Linkage::External
    }
}

fn is_internal(linkage: Linkage) -> bool
    ensures { result ≡ is_internal_of linkage }
{
    matches!(linkage, Linkage::Internal)
}

// Whether two functions give values of one type.
#[tactic(auto, using(cpp_types::proofs::Views::signature_view))]
fn same_result(a: &FnTy, b: &FnTy) -> bool
    ensures { result ≡ typ_eq (signature_result (signature_of a.now)) (signature_result (signature_of b.now)) }
{
    equal_types(&a.ret, &b.ret)
}

fn check(at: At, rule: IllRule, holds: bool) -> Result<bool, ElabFault>
    ensures { Tells result (check_of at rule holds) }
{
    if !holds {
        return Err(ill(at, rule));
    }
    Ok(true)
}

// Whether a declaration says `static` where the first did not.
fn turns_static(header: &Header, found: &FuncDecl) -> bool
    ensures { result ≡ (header.now.storage.is_static && not (is_internal_of found.now.linkage)) }
{
    header.storage.is_static && !is_internal(found.linkage)
}

fn is_known(found: &FuncDecl) -> bool
    ensures { result ≡ (found.now.is_defined || is_some found.now.builtin) }
{
    found.is_defined || found.builtin.is_some()
}

/// Tests that a further declaration of a function agrees with the first.
pub fn agrees(
    header: &Header,
    no_except: bool,
    found: &FuncDecl,
    defines: bool,
) -> Result<bool, ElabFault>
    ensures { Tells result (agrees_of (with_exceptions (header_of header.now) no_except) (func_of found.now) defines) }
{
    let at = header.at;
    check(
        at,
        IllRule::TypeDiffers,
        same_result(&found.rec.ty, &header.ty),
    )?;
    check(
        at,
        IllRule::SafetyDiffers,
        same_safety(found.rec.safety, safety_of(header.qualifiers)),
    )?;
    check(
        at,
        IllRule::BadDeclaration,
        same_flag(found.rec.no_except, no_except) && !turns_static(header, found),
    )?;
    check(at, IllRule::Redeclared, !(defines && is_known(found)))
}

fn param_from(alloc: Global, param: &Parameter) -> Result<TParam, AllocError>
    ensures { IfOk result (λ p. param_of p ≡ declared_param (parameter_of param.now)) }
{
    let ty = copy(alloc, &param.ty)?;
    Ok(TParam { ty, at: param.at })
}

/// Parameters as a function has them.
pub fn params_from(alloc: Global, params: &[Parameter]) -> Result<Vec<TParam>, AllocError>
    ensures { IfOk result (λ v. map param_of v.items ≡ map declared_param (map parameter_of params.now)) }
{
    let mut list = Vec::new(alloc);
    for param in params {
        let made = param_from(alloc, param)?;
        keep_param(&mut list, made)?;
    }
    Ok(list)
}

// A function as it is declared.
fn function_record(alloc: Global, header: &Header) -> Result<FuncRec, AllocError>
    ensures { IfOk result (λ f. function_of f ≡ function_record_of (header_of header.now)) }
{
    let name = Vec::from_slice(alloc, &header.name)?;
    let ty = copy_function(alloc, &header.ty)?;
    Ok(FuncRec {
        name,
        ty,
        is_const: header.qualifiers.is_const,
        is_virtual: header.storage.is_virtual,
        is_override: false,
        is_final: false,
        pure_virtual: false,
        safety: safety_of(header.qualifiers),
        considered: false,
        no_except: header.qualifiers.no_except,
        at: header.at,
    })
}

// The function that a declaration declares first.
fn new_function(alloc: Global, header: &Header) -> Result<FuncDecl, AllocError>
    ensures { IfOk result (λ f. func_of f ≡ new_function_of (header_of header.now)) }
{
    let rec = function_record(alloc, header)?;
    let params = params_from(alloc, &header.params)?;
    Ok(FuncDecl {
        rec,
        kind: header.kind,
        class: header.class,
        linkage: linkage_of(header.storage),
        implicit: false,
        is_defined: false,
        builtin: None,
        params,
        text: Vec::new(alloc),
        closed_at: 0,
    })
}

fn is_int(ty: &Ty) -> bool
    ensures { result ≡ typ_eq (typ_of ty.now) (plain (int Int)) }
{
    match &ty.shape {
        Shape::Int(kind) => matches!(*kind, IntKind::Int) && !ty.is_const && !ty.is_volatile,
        _ => false,
    }
}

fn is_main(header: &Header) -> bool
    ensures { result ≡ (bytes_eq header.now.name.items (codes "main") && is_none header.now.class) }
{
    header.name.as_slice() == b"main".as_slice() && header.class.is_none()
}

// Whether a function gives an `int`.
fn gives_int(ty: &FnTy) -> bool
    ensures { result ≡ typ_eq (signature_result (signature_of ty.now)) (plain (int Int)) }
{
    is_int(&ty.ret)
}

// Whether a function takes no parameters.
fn takes_none(ty: &FnTy) -> bool
    ensures { result ≡ is_none_typs (signature_parameters (signature_of ty.now)) }
{
    ty.params.is_empty()
}

// Whether a function is neither static nor inline.
fn is_outside(storage: Storage) -> bool
    ensures { result ≡ (not (storage_of storage).is_static && not (storage_of storage).is_inline) }
{
    !storage.is_static && !storage.is_inline
}

// Whether a function has the type and the words of `main`: `int main()`, neither static nor inline.
fn is_main_type(header: &Header) -> bool
    ensures { result ≡ is_main_type_of (header_of header.now) }
{
    gives_int(&header.ty) && takes_none(&header.ty) && is_outside(header.storage)
}

// Tests that `main` is what it may be (C++14 3.6.1).
fn main_fits(header: &Header) -> Result<bool, ElabFault>
    ensures { Tells result (main_fits_of (header_of header.now)) }
{
    if !is_main(header) {
        return Ok(true);
    }
    check(header.at, IllRule::BadMain, is_main_type(header))
}

fn may_be_c(header: &Header) -> bool
    ensures { result ≡ may_be_c_of (header_of header.now) }
{
    header.name.as_slice() == b"putchar".as_slice()
        || header.name.as_slice() == b"getchar".as_slice()
}

// Tests the words of a declaration of a function.
fn words_fit(header: &Header) -> Result<bool, ElabFault>
    ensures { Tells result (words_fit_of (header_of header.now)) }
{
    let at = header.at;
    if header.qualifiers.is_const {
        return Err(ill(at, IllRule::BadDeclaration));
    }
    if header.qualifiers.is_dynamic && header.class.is_none() {
        let rule = OverrideRule::DynamicNotVirtual;
        return Err(ElabFault::Override { at, rule });
    }
    if header.storage.is_c && !may_be_c(header) {
        return Err(ill(at, IllRule::OutOfProfile));
    }
    Ok(true)
}

fn is_function_entity(kind: EntityKind) -> bool
    ensures { result ≡ is_function_entity_of kind }
{
    matches!(kind, EntityKind::Funcs)
}

// Gives a name at file scope the meaning of functions, unless it has it; a member is found in its class.
fn name_declared(env: &mut Env, header: &Header, place: u32) -> Result<(), ElabFault>
    requires { place ≡ length (ctx_of env.old).funcs }
    ensures { Answers (ctx_of env.new) result (name_declared_of (ctx_of env.old) (header_of header.now) header.now.class) }
{
    if header.class.is_some() {
        return Ok(());
    }
    let entity = Entity {
        kind: EntityKind::Funcs,
        id: place,
    };
    match declare(env, &header.name, entity)? {
        Some(old) => {
            if !is_function_entity(old.kind) {
                return Err(ill(header.at, IllRule::Redeclared));
            }
            Ok(())
        }
        None => Ok(()),
    }
}

// The place of the next function.
fn next_function(env: &Env) -> Result<u32, AllocError>
    ensures { IfOk result (λ n. n ≡ length (ctx_of env.now).funcs) }
{
    let Ok(place) = u32::try_from(env.funcs.len()) else {
        return Err(AllocError);
    };
    Ok(place)
}

// A function that was not declared before.
fn first_declared(alloc: Global, env: &mut Env, header: &Header) -> Result<u32, ElabFault>
    ensures { Says (placed_at env.new) result (newly_declared (ctx_of env.old) (header_of header.now)) }
{
    let place = next_function(env)?;
    name_declared(env, header, place)?;
    let made = new_function(alloc, header)?;
    add_function(env, made)?;
    Ok(place)
}

/// A declaration of a function at file scope; the answer is its place among the functions of the unit.
pub fn function_declared(
    alloc: Global,
    env: &mut Env,
    header: &Header,
    defines: bool,
) -> Result<u32, ElabFault>
    ensures { Says (placed_at env.new) result (function_declared_of (ctx_of env.old) (header_of header.now) defines) }
{
    main_fits(header)?;
    words_fit(header)?;
    header_sized(env, header)?;
    match first_same(&env.funcs, header) {
        Some(place) => {
            // It stands there.
            let Some(found) = env.funcs.get(place as usize) else {
                return Err(ElabFault::Memory);
            };
            agrees(header, header.qualifiers.no_except, found, defines)?;
            Ok(place)
        }
        None => first_declared(alloc, env, header),
    }
}

/// The function with a place is defined, by a text and up to a byte.
pub fn define_function(
    alloc: Global,
    env: &mut Env,
    place: u32,
    header: &Header,
    text: Vec<u8>,
    closed_at: u32,
) -> Result<(), AllocError>
    ensures { OnOk result (ctx_of env.new ≡ with_definition_of (ctx_of env.old) place (header_of header.now) text.items closed_at) }
{
    let params = params_from(alloc, &header.params)?;
    env.funcs.define(place as usize, params, text, closed_at);
    Ok(())
}

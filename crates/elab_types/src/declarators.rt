// What declarators make of types (C++14 8.3).

ghost use Rattle.std.specs.Prelude.{◌≡◌, Ok, IfOk, map};
ghost use Rattle.cpp_types.specs.Typ.{typ_of, typs_of, shape_form, ptr, ref, array, func, signature, signature_of};
ghost use Rattle.elab_conv.specs.cpp_tree.Notation.{plain};
ghost use Rattle.elab_conv.specs.elab_ctx.Ctx.{ctx_of};
ghost use Rattle.elab_conv.specs.elab_rules.Types.{pointer_to as pointer_to_of, reference_to as reference_to_of, open_array as open_array_of, parameter_type as parameter_type_of, types_of, function_of as function_of_of, with_function as with_function_of, is_declared_safe as is_declared_safe_of, declared_name as declared_name_of};
ghost use Rattle.elab_types.specs.Specified.{parameter_declared};
ghost use Rattle.elab_types.specs.Shown.{Says, declared_of, parameter_of, qualifiers_of};

use crate::records::{Declared, Parameter, Qualifiers};
use crate::specifiers::ill;
use crate::types::{
    adjusted, has_auto, is_abstract, is_bounded, is_element, is_reference, is_result, is_void_type,
};
use cpp_types::{At, FnTy, Shape, Ty, copy};
use elab_conv::below::{ElabFault, Env, IllRule, LimitKind, MOST_PARAMETERS};
use elab_conv::types::unqualified_type;
use std::alloc::{AllocError, Global};

/// A limit that is passed at a place.
pub fn past(at: At, which: LimitKind) -> ElabFault
    ensures { result ≡ ElabFault.Limit at which }
{
    ElabFault::Limit { at, which }
}

fn plain_type(shape: Shape) -> Ty
    ensures { typ_of result ≡ plain (shape_form shape) }
{
    Ty {
        shape,
        is_const: false,
        is_volatile: false,
    }
}

fn pointer_type(alloc: Global, target: &Ty) -> Result<Ty, AllocError>
    ensures { IfOk result (λ t. typ_of t ≡ plain (ptr (typ_of target.now))) }
{
    let target = Box::new(alloc, copy(alloc, target)?)?;
    Ok(plain_type(Shape::Ptr(target)))
}

fn reference_type(alloc: Global, target: &Ty) -> Result<Ty, AllocError>
    ensures { IfOk result (λ t. typ_of t ≡ plain (ref (typ_of target.now))) }
{
    let target = Box::new(alloc, copy(alloc, target)?)?;
    Ok(plain_type(Shape::Ref(target)))
}

/// A pointer to a type (C++14 8.3.1).
pub fn pointer_to(alloc: Global, at: At, ty: &Ty) -> Result<Ty, ElabFault>
    ensures { Says typ_of result (pointer_to_of at (typ_of ty.now)) }
{
    if is_reference(ty) {
        return Err(ill(at, IllRule::BadDeclaration));
    }
    if is_void_type(ty) || !is_bounded(ty) {
        return Err(ill(at, IllRule::OutOfProfile));
    }
    let made = pointer_type(alloc, ty)?;
    Ok(made)
}

/// A reference to a type (8.3.2).
pub fn reference_to(alloc: Global, at: At, ty: &Ty) -> Result<Ty, ElabFault>
    ensures { Says typ_of result (reference_to_of at (typ_of ty.now)) }
{
    if is_reference(ty) || is_void_type(ty) {
        return Err(ill(at, IllRule::BadDeclaration));
    }
    if !is_bounded(ty) {
        return Err(ill(at, IllRule::OutOfProfile));
    }
    let made = reference_type(alloc, ty)?;
    Ok(made)
}

fn array_type(alloc: Global, element: &Ty, count: u32) -> Result<Ty, AllocError>
    ensures { IfOk result (λ t. typ_of t ≡ plain (array (typ_of element.now) count)) }
{
    let element = Box::new(alloc, copy(alloc, element)?)?;
    Ok(plain_type(Shape::Array(element, count)))
}

/// An array whose bound its initialiser gives, with 0 for it.
pub fn open_array(alloc: Global, at: At, ty: &Ty) -> Result<Ty, ElabFault>
    ensures { Says typ_of result (open_array_of at (typ_of ty.now)) }
{
    if !is_element(ty) {
        return Err(ill(at, IllRule::BadDeclaration));
    }
    let made = array_type(alloc, ty, 0)?;
    Ok(made)
}

/// The type of a parameter (8.3.5 p5).
pub fn parameter_type(alloc: Global, env: &Env, at: At, ty: &Ty) -> Result<Ty, ElabFault>
    ensures { Says typ_of result (parameter_type_of (ctx_of env.now) at (typ_of ty.now)) }
{
    if is_void_type(ty) {
        return Err(ill(at, IllRule::BadDeclaration));
    }
    if has_auto(ty) {
        return Err(ill(at, IllRule::OutOfProfile));
    }
    if is_abstract(env, ty) {
        return Err(ill(at, IllRule::AbstractObject));
    }
    let made = adjusted(alloc, ty)?;
    Ok(made)
}

/// The types of parameters, as they are part of the type of their function.
pub fn types_of_parameters(alloc: Global, params: &[Parameter]) -> Result<Vec<Ty>, AllocError>
    ensures { IfOk result (λ v. typs_of v.items ≡ types_of (map parameter_of params.now)) }
{
    let mut types = Vec::new(alloc);
    for param in params {
        types.push(unqualified_type(alloc, &param.ty)?)?;
    }
    Ok(types)
}

fn signature_type(params: Vec<Ty>, ret: Ty, safe: bool) -> FnTy
    ensures { signature_of result ≡ signature (typs_of params.items) (typ_of ret) safe }
{
    FnTy { params, ret, safe }
}

fn function_type(
    alloc: Global,
    ret: &Ty,
    params: &[Parameter],
    safe: bool,
) -> Result<Ty, AllocError>
    ensures { IfOk result (λ t. typ_of t ≡ plain (func (signature (types_of (map parameter_of params.now)) (typ_of ret.now) safe))) }
{
    let params = types_of_parameters(alloc, params)?;
    let ret = copy(alloc, ret)?;
    let function = Box::new(alloc, signature_type(params, ret, safe))?;
    Ok(plain_type(Shape::Func(function)))
}

/// A function of these parameters (8.3.5).
pub fn function_of(
    alloc: Global,
    env: &Env,
    at: At,
    ret: &Ty,
    params: &[Parameter],
    safe: bool,
) -> Result<Ty, ElabFault>
    ensures { Says typ_of result (function_of_of (ctx_of env.now) at (typ_of ret.now) (map parameter_of params.now) safe) }
{
    if !is_result(ret) {
        return Err(ill(at, IllRule::BadDeclaration));
    }
    if has_auto(ret) {
        return Err(ill(at, IllRule::OutOfProfile));
    }
    if is_abstract(env, ret) {
        return Err(ill(at, IllRule::AbstractObject));
    }
    if params.len() > MOST_PARAMETERS {
        return Err(past(at, LimitKind::Params));
    }
    let made = function_type(alloc, ret, params, safe)?;
    Ok(made)
}

/// Whether what follows the parameters declares a function that is safe in transactions.
pub fn is_declared_safe(qualifiers: Qualifiers) -> bool
    ensures { result ≡ is_declared_safe_of (qualifiers_of qualifiers) }
{
    qualifiers.is_safe || qualifiers.is_dynamic
}

/// What a name declares.
pub fn declared_name(
    alloc: Global,
    name: Option<u32>,
    owner: Option<u32>,
    is_destructor: bool,
    ty: &Ty,
) -> Result<Declared, AllocError>
    ensures { IfOk result (λ d. declared_of d ≡ declared_name_of name owner is_destructor (typ_of ty.now)) }
{
    let ty = copy(alloc, ty)?;
    Ok(Declared {
        name,
        owner,
        is_destructor,
        ty,
        params: Vec::new(alloc),
        qualifiers: Qualifiers {
            is_const: false,
            is_safe: false,
            is_dynamic: false,
            no_except: false,
        },
    })
}

// What is declared, with parameters and what follows them.
fn with_parameters(declared: Declared, params: Vec<Parameter>, qualifiers: Qualifiers) -> Declared
    ensures { declared_of result ≡ record (declared_of declared) { params = map parameter_of params.items; qualifiers = qualifiers_of qualifiers } }
{
    Declared {
        name: declared.name,
        owner: declared.owner,
        is_destructor: declared.is_destructor,
        ty: declared.ty,
        params,
        qualifiers,
    }
}

/// A function that is declared has its own parameters and what follows them; another one has no `const` and no
/// `transaction_safe_dynamic`.
pub fn with_function(
    at: At,
    is_name: bool,
    params: Vec<Parameter>,
    qualifiers: Qualifiers,
    declared: Declared,
) -> Result<Declared, ElabFault>
    ensures { Says declared_of result (with_function_of at is_name (map parameter_of params.items) (qualifiers_of qualifiers) (declared_of declared)) }
{
    if is_name {
        return Ok(with_parameters(declared, params, qualifiers));
    }
    if qualifiers.is_const || qualifiers.is_dynamic {
        return Err(ill(at, IllRule::BadDeclaration));
    }
    Ok(declared)
}

/// The parameter that a declarator declares.
pub fn parameter_of(
    alloc: Global,
    env: &Env,
    at: At,
    declared: &Declared,
) -> Result<Parameter, ElabFault>
    ensures { Says parameter_of result (parameter_declared (ctx_of env.now) at (declared_of declared.now)) }
{
    let ty = parameter_type(alloc, env, at, &declared.ty)?;
    Ok(Parameter {
        name: declared.name,
        at,
        ty,
    })
}

/// What a name declares, as the whole answer.
pub fn name_declared(
    alloc: Global,
    name: Option<u32>,
    owner: Option<u32>,
    is_destructor: bool,
    ty: &Ty,
) -> Result<Declared, ElabFault>
    ensures { Says declared_of result (Ok (declared_name_of name owner is_destructor (typ_of ty.now))) }
{
    let made = declared_name(alloc, name, owner, is_destructor, ty)?;
    Ok(made)
}

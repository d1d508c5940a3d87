// Members that no text declares (C++14 12.1, 12.4, 12.8).

ghost use Rattle.std.specs.Prelude.{◌≡◌, ◌∷◌, [], ◌||◌, false, IfOk, map};
ghost use Rattle.cpp_types.specs.Typ.{typ_of, typs_of, signature, signature_of, void, more as and_typ, none as no_typs};
ghost use Rattle.cpp_types.specs.Class.{function_of};
ghost use Rattle.cpp_types.specs.Trivial.{is_destructor_name as is_destructor_name_of};
ghost use Rattle.elab_init.specs.cpp_tree.Notation.{plain};
ghost use Rattle.elab_init.specs.cpp_tree.Units.{param_of};
ghost use Rattle.elab_init.specs.elab_ctx.Ctx.{ctx_of, func_of, special_of};
ghost use Rattle.elab_init.specs.elab_rules.Classes.{implicit_record as implicit_record_of, implicit_function as implicit_function_of, own_reference as own_reference_of, with_implicit};
ghost use Rattle.class_members.specs.Shown.{home_of};
ghost use Rattle.class_specials.specs.Implicit.{destructor_made, copy_made, default_made};

use class_members::lists::{add_function, keep_param};
use class_members::overriding::{TakenOver, is_destructor_name, taken_over};
use class_members::records::Home;
use cpp_types::{At, FnTy, FuncRec, Safety, Shape, Ty};
use elab_init::below::{Env, FuncDecl, FuncKind, Linkage, Special, TParam};
use std::alloc::{AllocError, Global};

fn void_type() -> Ty
    ensures { typ_of result ≡ plain void }
{
    Ty {
        shape: Shape::Void,
        is_const: false,
        is_volatile: false,
    }
}

fn function_type(params: Vec<Ty>, ret: Ty) -> FnTy
    ensures { signature_of result ≡ signature (typs_of params.items) (typ_of ret) false }
{
    FnTy {
        params,
        ret,
        safe: false,
    }
}

fn implicit_record(name: Vec<u8>, at: At, params: Vec<Ty>) -> FuncRec
    ensures { function_of result ≡ implicit_record_of name.items at (typs_of params.items) }
{
    let no_except = is_destructor_name(&name);
    let ty = function_type(params, void_type());
    FuncRec {
        name,
        ty,
        is_const: false,
        is_virtual: false,
        is_override: false,
        is_final: false,
        pure_virtual: false,
        safety: Safety::None,
        considered: false,
        no_except,
        at,
    }
}

fn implicit_function(
    alloc: Global,
    class: u32,
    kind: FuncKind,
    params: Vec<TParam>,
    rec: FuncRec,
) -> FuncDecl
    ensures { func_of result ≡ implicit_function_of class kind (map param_of params.items) (function_of rec) }
{
    FuncDecl {
        rec,
        kind,
        class: Some(class),
        linkage: Linkage::Inline,
        implicit: true,
        is_defined: true,
        builtin: None,
        params,
        text: Vec::new(alloc),
        closed_at: 0,
    }
}

// The type of a reference to an object of a class.
fn own_reference(alloc: Global, class: u32, is_const: bool) -> Result<Ty, AllocError>
    ensures { IfOk result (λ t. typ_of t ≡ own_reference_of class is_const) }
{
    let object = Ty {
        shape: Shape::Class(class),
        is_const,
        is_volatile: false,
    };
    Ok(Ty {
        shape: Shape::Ref(Box::new(alloc, object)?),
        is_const: false,
        is_volatile: false,
    })
}

fn destructor_name(alloc: Global, name: &[u8]) -> Result<Vec<u8>, AllocError>
    ensures { IfOk result (λ v. v.items ≡ 126 ∷ name.now) }
{
    let mut made = Vec::new(alloc);
    made.push(b'~')?;
    made.extend_from_slice(name)?;
    Ok(made)
}

// A destructor with what it takes over from that of a base.
fn with_taken_over(found: FuncRec, over: TakenOver) -> FuncRec
    ensures { function_of result ≡ record (function_of found) { is_virtual = over.is_some; is_override = false; is_final = false; pure_virtual = false; considered = over.considered; no_except = found.no_except || is_destructor_name_of found.name.items } }
{
    let no_except = found.no_except || is_destructor_name(&found.name);
    FuncRec {
        name: found.name,
        ty: found.ty,
        is_const: found.is_const,
        is_virtual: over.is_some,
        is_override: false,
        is_final: false,
        pure_virtual: false,
        safety: found.safety,
        considered: over.considered,
        no_except,
        at: found.at,
    }
}

/// The destructor that destroys each part.
pub fn implicit_destructor(
    alloc: Global,
    env: &Env,
    home: &Home,
    at: At,
) -> Result<FuncDecl, AllocError>
    ensures { IfOk result (λ f. func_of f ≡ destructor_made (ctx_of env.now) (home_of home.now) at) }
{
    let name = destructor_name(alloc, &home.name)?;
    let bare = implicit_record(name, at, Vec::new(alloc));
    let over = taken_over(env, home.base, &bare);
    let rec = with_taken_over(bare, over);
    Ok(implicit_function(
        alloc,
        home.number,
        FuncKind::Destructor,
        Vec::new(alloc),
        rec,
    ))
}

fn one_type(alloc: Global, ty: Ty) -> Result<Vec<Ty>, AllocError>
    ensures { IfOk result (λ v. typs_of v.items ≡ and_typ (typ_of ty) no_typs) }
{
    let mut list = Vec::new(alloc);
    list.push(ty)?;
    Ok(list)
}

fn one_param(alloc: Global, param: TParam) -> Result<Vec<TParam>, AllocError>
    ensures { IfOk result (λ v. map param_of v.items ≡ param_of param ∷ []) }
{
    let mut list = Vec::new(alloc);
    keep_param(&mut list, param)?;
    Ok(list)
}

/// The constructor that copies each part.
pub fn implicit_copy(
    alloc: Global,
    home: &Home,
    at: At,
    is_const: bool,
) -> Result<FuncDecl, AllocError>
    ensures { IfOk result (λ f. func_of f ≡ copy_made (home_of home.now) at is_const) }
{
    let ty = own_reference(alloc, home.number, is_const)?;
    let types = one_type(alloc, ty)?;
    let name = Vec::from_slice(alloc, &home.name)?;
    let rec = implicit_record(name, at, types);
    let ty = own_reference(alloc, home.number, is_const)?;
    let params = one_param(alloc, TParam { ty, at })?;
    Ok(implicit_function(alloc, home.number, FuncKind::Constructor, params, rec))
}

/// The constructor without arguments.
pub fn implicit_default(alloc: Global, home: &Home, at: At) -> Result<FuncDecl, AllocError>
    ensures { IfOk result (λ f. func_of f ≡ default_made (home_of home.now) at) }
{
    let name = Vec::from_slice(alloc, &home.name)?;
    let rec = implicit_record(name, at, Vec::new(alloc));
    Ok(implicit_function(
        alloc,
        home.number,
        FuncKind::Constructor,
        Vec::new(alloc),
        rec,
    ))
}

/// A special member among the functions of the unit.
pub fn add_implicit(env: &mut Env, made: FuncDecl) -> Result<Special, AllocError>
    ensures { IfOk result (λ s. with_implicit (ctx_of env.old) (func_of made) ≡ record { ctx = ctx_of env.new; special = special_of s }) }
{
    let Ok(place) = u32::try_from(env.funcs.len()) else {
        return Err(AllocError);
    };
    add_function(env, made)?;
    Ok(Special::Function(place))
}

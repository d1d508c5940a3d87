// What member functions, constructors and destructors declare (C++14 9.3, 12.1, 12.4).

ghost use Rattle.std.specs.Prelude.{◌≡◌, not, if◌then◌else◌, IfOk};
ghost use Rattle.elab_init.specs.cpp_lex.Tokens.{lexemes_of};
ghost use Rattle.cpp_types.specs.Typ.{typ_of, signature_of, typs_of, more as and_typ, none as no_typs};
ghost use Rattle.elab_init.specs.cpp_tree.Typing.{form_in};
ghost use Rattle.elab_init.specs.elab_rules.Initialising.{makes};
ghost use Rattle.elab_init.specs.elab_rules.Statements.{name_of as name_of_of};
ghost use Rattle.elab_init.specs.elab_rules.Functions.{is_none_typs};
ghost use Rattle.elab_init.specs.elab_rules.Classes.{header_in as header_in_of, special_name as special_name_of, special_header as special_header_of, takes_own_value as takes_own_value_of, is_special as is_special_of};
ghost use Rattle.elab_types.specs.Shown.{Says, declared_of};
ghost use Rattle.class_members.specs.Shown.{header_of, storage_of};
ghost use Rattle.class_texts.specs.Signatures.{signature_in, header_by};

use class_members::{Header, Storage};
use cpp_types::{At, FnTy, Shape, Ty, copy_function};
use elab_init::below::{ElabFault, FuncKind, IllRule, Tokens};
use elab_init::ill;
use elab_types::Declared;
use elab_types::syntax::spelling;
use elab_types::types::is_void_type;
use std::alloc::{AllocError, Global};

/// The name that a declarator declares; nothing where it declares none.
pub fn name_of(tokens: &Tokens, name: Option<u32>) -> &[u8]
    ensures { result.now ≡ name_of_of (lexemes_of tokens.now) name }
{
    match name {
        Some(token) => spelling(tokens, token),
        None => &[],
    }
}

// A type as that of a function.
fn function_type(alloc: Global, at: At, ty: &Ty) -> Result<FnTy, ElabFault>
    ensures { Says signature_of result (signature_in at (form_in (typ_of ty.now))) }
{
    match &ty.shape {
        Shape::Func(function) => {
            let copied = copy_function(alloc, function)?;
            Ok(copied)
        }
        Shape::Void
        | Shape::Int(_)
        | Shape::Enum { .. }
        | Shape::Null
        | Shape::Ptr(_)
        | Shape::Ref(_)
        | Shape::Array(_, _)
        | Shape::Class(_)
        | Shape::Closure(_)
        | Shape::TxEx(_) => Err(ill(at, IllRule::BadDeclaration)),
    }
}

fn header_with(
    alloc: Global,
    class: u32,
    storage: Storage,
    kind: FuncKind,
    at: At,
    name: &[u8],
    declared: Declared,
    ty: FnTy,
) -> Result<Header, AllocError>
    ensures { IfOk result (λ h. header_of h ≡ header_by class (storage_of storage) kind at name.now (declared_of declared) (signature_of ty)) }
{
    let name = Vec::from_slice(alloc, name)?;
    Ok(Header {
        name,
        at,
        ty,
        params: declared.params,
        qualifiers: declared.qualifiers,
        storage,
        kind,
        class: Some(class),
    })
}

/// The header of a function of a class.
pub fn header_in(
    alloc: Global,
    class: u32,
    storage: Storage,
    kind: FuncKind,
    at: At,
    name: &[u8],
    declared: Declared,
) -> Result<Header, ElabFault>
    ensures { Says header_of result (header_in_of class (storage_of storage) kind at name.now (declared_of declared) (form_in (typ_of declared.ty))) }
{
    let ty = function_type(alloc, at, &declared.ty)?;
    let made = header_with(alloc, class, storage, kind, at, name, declared, ty)?;
    Ok(made)
}

fn special_name(alloc: Global, kind: FuncKind, name: &[u8]) -> Result<Vec<u8>, AllocError>
    ensures { IfOk result (λ v. v.items ≡ special_name_of kind name.now) }
{
    let mut made = Vec::new(alloc);
    match kind {
        FuncKind::Destructor => {
            made.push(b'~')?;
            made.extend_from_slice(name)?;
            Ok(made)
        }
        FuncKind::Plain | FuncKind::Constructor | FuncKind::ClosureCall => {
            made.extend_from_slice(name)?;
            Ok(made)
        }
    }
}

fn is_class(ty: &Ty, class: u32) -> bool
    ensures { result ≡ takes_own_value_of class (and_typ (typ_of ty.now) no_typs) }
{
    match &ty.shape {
        Shape::Class(found) => *found == class,
        _ => false,
    }
}

// Whether the one type of a list is a class.
fn is_only_class(types: &[Ty], class: u32) -> bool
    ensures { result ≡ takes_own_value_of class (typs_of types.now) }
{
    types.len() == 1 && is_class(&types[0], class)
}

fn makes_objects(kind: FuncKind) -> bool
    ensures { result ≡ makes kind }
{
    match kind {
        FuncKind::Constructor => true,
        FuncKind::Plain | FuncKind::Destructor | FuncKind::ClosureCall => false,
    }
}

// Whether the type of a function is that of a constructor or a destructor: it has no result, and a destructor has no
// parameters.
#[tactic(auto, using(cpp_types::proofs::Views::signature_view))]
fn is_special(kind: FuncKind, class: u32, function: &FnTy) -> bool
    ensures { result ≡ is_special_of kind class (signature_of function.now) }
{
    is_void_type(&function.ret) && fits_kind(makes_objects(kind), class, &function.params)
}

fn fits_kind(makes: bool, class: u32, params: &[Ty]) -> bool
    ensures { result ≡ (if makes then not (takes_own_value_of class (typs_of params.now)) else is_none_typs (typs_of params.now)) }
{
    if makes {
        !is_only_class(params, class)
    } else {
        takes_none(params)
    }
}

fn takes_none(params: &[Ty]) -> bool
    ensures { result ≡ is_none_typs (typs_of params.now) }
{
    params.is_empty()
}

/// The header of a constructor or a destructor.
pub fn special_header(
    alloc: Global,
    class: u32,
    class_name: &[u8],
    at: At,
    storage: Storage,
    kind: FuncKind,
    declared: Declared,
    name: &[u8],
) -> Result<Header, ElabFault>
    ensures { Says header_of result (special_header_of class class_name.now at (storage_of storage) kind (declared_of declared) name.now) }
{
    if name != class_name || declared.qualifiers.is_const {
        return Err(ill(at, IllRule::BadDeclaration));
    }
    let special = special_name(alloc, kind, class_name)?;
    let header = header_in(alloc, class, storage, kind, at, &special, declared)?;
    if !is_special(kind, class, &header.ty) {
        return Err(ill(at, IllRule::BadDeclaration));
    }
    Ok(header)
}

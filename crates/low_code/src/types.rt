//! The spellings of types in objects.

ghost use Rattle.std.specs.Prelude.{◌≡◌, ◌++◌, codes, IfOk, OnOk};
ghost use Rattle.cpp_tree.specs.cpp_types.Typ.{typ_of, typs_of, shape_form, signature_of};
ghost use Rattle.cpp_tree.specs.cpp_types.Class.{classes_of};
ghost use Rattle.cpp_tree.specs.cpp_types.Spelling.{spelling, listed, where_set};
ghost use Rattle.low_code.specs.Types.{stored_form, stored_kind as kind_stored, is_void_form, is_void as is_void_typ, is_class_form, is_class_type as is_class_typ, word_count as words_of_typ, result_of, gives as words_given, bare_typ, bare_text as text_of_bare, function_text as text_of_function, result_text as text_of_result, this_text as text_with_this, member_text as text_of_member, called_typ, called_type as type_called};

use cpp_tree::below::{ClassRec, FnTy, IntKind, Shape, Ty, copy, spell};
use cpp_tree::{FuncKind, TFunc};
use std::alloc::{AllocError, Global};

/// The kind by which a scalar of this type is stored; that of addresses for what is none.
pub fn stored_kind(ty: &Ty) -> IntKind
    ensures { result ≡ kind_stored (typ_of ty.now) }
{
    match &ty.shape {
        Shape::Int(kind) => *kind,
        Shape::Enum { .. } => IntKind::Int,
        _ => IntKind::ULong,
    }
}

/// Whether it is `void`.
pub fn is_void(ty: &Ty) -> bool
    ensures { result ≡ is_void_typ (typ_of ty.now) }
{
    match &ty.shape {
        Shape::Void => true,
        _ => false,
    }
}

/// Whether objects of this type are made of parts.
pub fn is_class_type(ty: &Ty) -> bool
    ensures { result ≡ is_class_typ (typ_of ty.now) }
{
    match &ty.shape {
        Shape::Class(_) | Shape::Closure(_) | Shape::TxEx(_) => true,
        _ => false,
    }
}

/// How many words a function hands back: none where the result is `void` or a class.
pub fn gives(func: &TFunc) -> u32
    ensures { result ≡ words_given func.now.kind (signature_of func.now.rec.ty) }
{
    match func.kind {
        FuncKind::Constructor | FuncKind::Destructor => 0,
        FuncKind::Plain | FuncKind::ClosureCall => result_words(&func.rec.ty),
    }
}

// How many words the result of a function of this type is.
#[tactic(auto, using(cpp_types::proofs::Views::signature_view))]
fn result_words(ty: &FnTy) -> u32
    ensures { result ≡ words_of_typ (result_of (signature_of ty.now)) }
{
    word_count(&ty.ret)
}

/// How many words a result of this type is.
pub fn word_count(ret: &Ty) -> u32
    ensures { result ≡ words_of_typ (typ_of ret.now) }
{
    if is_void(ret) || is_class_type(ret) {
        0
    } else {
        1
    }
}

// A copy of a type without its own `const` and `volatile`.
fn bare(alloc: Global, ty: &Ty) -> Result<Ty, AllocError>
    ensures { IfOk result (λ t. typ_of t ≡ bare_typ (typ_of ty.now)) }
{
    let copied = copy(alloc, ty)?;
    Ok(Ty {
        shape: copied.shape,
        is_const: false,
        is_volatile: false,
    })
}

/// The spelling of a type without its own `const` and `volatile`.
pub fn bare_text(alloc: Global, ty: &Ty, classes: &[ClassRec]) -> Result<Vec<u8>, AllocError>
    ensures { IfOk result (λ text. text.items ≡ text_of_bare (classes_of classes.now) (typ_of ty.now)) }
{
    let bare = bare(alloc, ty)?;
    spell(alloc, &bare, classes)
}

// Adds the spelling of a type, with a comma before it where the flag is set.
fn add_spelling(
    alloc: Global,
    text: &mut Vec<u8>,
    ty: &Ty,
    classes: &[ClassRec],
    comma: bool,
) -> Result<(), AllocError>
    ensures { OnOk result (text.new.items ≡ text.old.items ++ (where_set comma (codes ",") ++ spelling (classes_of classes.now) (typ_of ty.now))) }
{
    if comma {
        text.extend_from_slice(b",")?;
    }
    let spelled = spell(alloc, ty, classes)?;
    text.extend_from_slice(&spelled)?;
    Ok(())
}

// Adds the spellings of types with commas between them, and one before the first where the flag is set.
fn add_list(
    alloc: Global,
    text: &mut Vec<u8>,
    types: &[Ty],
    classes: &[ClassRec],
    comma: bool,
) -> Result<(), AllocError>
    ensures { OnOk result (text.new.items ≡ text.old.items ++ listed (classes_of classes.now) comma (typs_of types.now)) }
{
    let mut comma = comma;
    for ty in types {
        add_spelling(alloc, text, ty, classes, comma)?;
        comma = true;
    }
    Ok(())
}

/// The spelling of a function's type without `transaction_safe`.
#[tactic(auto, using(cpp_types::proofs::Views::signature_view))]
pub fn function_text(alloc: Global, ty: &FnTy, classes: &[ClassRec]) -> Result<Vec<u8>, AllocError>
    ensures { IfOk result (λ text. text.items ≡ text_of_function (classes_of classes.now) (signature_of ty.now)) }
{
    let mut text = spell(alloc, &ty.ret, classes)?;
    text.extend_from_slice(b"(")?;
    add_list(alloc, &mut text, &ty.params, classes, false)?;
    text.extend_from_slice(b")")?;
    Ok(text)
}

// The spelling of a member function's result.
fn result_text(
    alloc: Global,
    kind: FuncKind,
    ret: &Ty,
    classes: &[ClassRec],
) -> Result<Vec<u8>, AllocError>
    ensures { IfOk result (λ text. text.items ≡ text_of_result (classes_of classes.now) kind (typ_of ret.now)) }
{
    match kind {
        FuncKind::Constructor | FuncKind::Destructor => Vec::from_slice(alloc, b"void"),
        FuncKind::Plain | FuncKind::ClosureCall => spell(alloc, ret, classes),
    }
}

// The spelling of a function's type with `this` as the first parameter.
#[tactic(auto, using(cpp_types::proofs::Views::signature_view))]
fn this_text(
    alloc: Global,
    kind: FuncKind,
    ty: &FnTy,
    classes: &[ClassRec],
) -> Result<Vec<u8>, AllocError>
    ensures { IfOk result (λ text. text.items ≡ text_with_this (classes_of classes.now) kind (signature_of ty.now)) }
{
    let mut text = result_text(alloc, kind, &ty.ret, classes)?;
    text.extend_from_slice(b"(this")?;
    add_list(alloc, &mut text, &ty.params, classes, true)?;
    text.extend_from_slice(b")")?;
    Ok(text)
}

/// The spelling of a function's type in an object: of a member function with `this` as the first parameter.
pub fn member_text(alloc: Global, func: &TFunc, classes: &[ClassRec]) -> Result<Vec<u8>, AllocError>
    ensures { IfOk result (λ text. text.items ≡ text_of_member (classes_of classes.now) func.now.class func.now.kind (signature_of func.now.rec.ty)) }
{
    match func.class {
        Some(_) => this_text(alloc, func.kind, &func.rec.ty, classes),
        None => function_text(alloc, &func.rec.ty, classes),
    }
}

// The function type that this type is.
fn function_of(ty: &Ty) -> Result<&FnTy, AllocError>
    ensures { IfOk result (λ f. signature_of f.now ≡ called_typ (typ_of ty.now)) }
{
    match &ty.shape {
        Shape::Func(function) => Ok(function),
        _ => Err(AllocError),
    }
}

/// The function type that a pointer of this type points to.
pub fn called_type(ty: &Ty) -> Result<&FnTy, AllocError>
    ensures { IfOk result (λ f. signature_of f.now ≡ type_called (typ_of ty.now)) }
{
    match &ty.shape {
        Shape::Ptr(target) => function_of(target),
        _ => Err(AllocError),
    }
}

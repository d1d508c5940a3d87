//! The spellings of the types of functions in objects.
ghost use Rattle.std.specs.Prelude.{◌≡◌, ◌++◌, codes, IfOk, OnOk};
ghost use Rattle.cpp_tree.specs.cpp_types.Typ.{typ_of, typs_of, signature_of};
ghost use Rattle.cpp_tree.specs.cpp_types.Class.{classes_of};
ghost use Rattle.cpp_tree.specs.cpp_types.Spelling.{spelling, listed, where_set};
ghost use Rattle.unit_entries.specs.Entries.{function_text as text_of_function, member_text as text_of_member, result_text as text_of_result, type_text as text_of_type};

use cpp_tree::below::{ClassRec, FnTy, Ty, spell};
use cpp_tree::{FuncKind, TFunc};
use std::alloc::{AllocError, Global};

// Adds the spelling of a type, with a comma before it where the flag is set.
fn add_spelling(
    alloc: Global,
    text: &mut Vec<u8>,
    ty: &Ty,
    classes: &[ClassRec],
    comma: bool,
) -> Result<(), AllocError>
    ensures { OnOk result (text.new.items ≡ text.old.items ++ (where_set comma (codes ",") ++ spelling (classes_of classes.now) (typ_of ty.now))) }
{
    if comma {
        text.extend_from_slice(b",")?;
    }
    let spelled = spell(alloc, ty, classes)?;
    text.extend_from_slice(&spelled)?;
    Ok(())
}

// Adds the spellings of types with commas between them, and one before the first where the flag is set.
fn add_list(
    alloc: Global,
    text: &mut Vec<u8>,
    types: &[Ty],
    classes: &[ClassRec],
    comma: bool,
) -> Result<(), AllocError>
    ensures { OnOk result (text.new.items ≡ text.old.items ++ listed (classes_of classes.now) comma (typs_of types.now)) }
{
    let mut comma = comma;
    for ty in types {
        add_spelling(alloc, text, ty, classes, comma)?;
        comma = true;
    }
    Ok(())
}

// The spelling of a function's type without `transaction_safe`.
#[tactic(auto, using(cpp_types::proofs::Views::signature_view))]
fn function_text(alloc: Global, ty: &FnTy, classes: &[ClassRec]) -> Result<Vec<u8>, AllocError>
    ensures { IfOk result (λ v. v.items ≡ text_of_function (classes_of classes.now) (signature_of ty.now)) }
{
    let mut text = spell(alloc, &ty.ret, classes)?;
    text.extend_from_slice(b"(")?;
    add_list(alloc, &mut text, &ty.params, classes, false)?;
    text.extend_from_slice(b")")?;
    Ok(text)
}

// The spelling of a member function's result.
fn result_text(
    alloc: Global,
    kind: FuncKind,
    ret: &Ty,
    classes: &[ClassRec],
) -> Result<Vec<u8>, AllocError>
    ensures { IfOk result (λ v. v.items ≡ text_of_result (classes_of classes.now) kind (typ_of ret.now)) }
{
    match kind {
        FuncKind::Constructor | FuncKind::Destructor => Vec::from_slice(alloc, b"void"),
        FuncKind::Plain | FuncKind::ClosureCall => spell(alloc, ret, classes),
    }
}

// The spelling of a member function's type, with `this` as the first parameter.
#[tactic(auto, using(cpp_types::proofs::Views::signature_view))]
fn member_text(
    alloc: Global,
    kind: FuncKind,
    ty: &FnTy,
    classes: &[ClassRec],
) -> Result<Vec<u8>, AllocError>
    ensures { IfOk result (λ v. v.items ≡ text_of_member (classes_of classes.now) kind (signature_of ty.now)) }
{
    let mut text = result_text(alloc, kind, &ty.ret, classes)?;
    text.extend_from_slice(b"(this")?;
    add_list(alloc, &mut text, &ty.params, classes, true)?;
    text.extend_from_slice(b")")?;
    Ok(text)
}

/// The spelling of a function's type in an object.
pub fn type_text(alloc: Global, func: &TFunc, classes: &[ClassRec]) -> Result<Vec<u8>, AllocError>
    ensures { IfOk result (λ v. v.items ≡ text_of_type (classes_of classes.now) func.now.class func.now.kind (signature_of func.now.rec.ty)) }
{
    match func.class {
        Some(_) => member_text(alloc, func.kind, &func.rec.ty, classes),
        None => function_text(alloc, &func.rec.ty, classes),
    }
}

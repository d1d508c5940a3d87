// How types are spelled.

ghost use Rattle.std.specs.Prelude.{◌≡◌, ◌++◌, false, IfOk, OnOk, codes, decimal, slice_get};
ghost use Rattle.cpp_types.specs.Typ.{typ_of, typs_of, shape_form, signature_of};
ghost use Rattle.cpp_types.specs.Class.{classes_of};
ghost use Rattle.cpp_types.specs.Spelling.{kind_spelling, where_set, before, behind, name_of, position_spelling, closure_name, spelling, form_spelling, pointer_spelling, function_spelling, listed};

use crate::classes::{At, ClassRec};
use crate::types::{FnTy, Shape, Ty};
use itoa::Buffer;
use std::alloc::{AllocError, Global};
use tx_ints::IntKind;

/// The spelling of a type.
///
/// A type has its `const` and `volatile` before it, a pointer behind its star; a lambda's class
/// is named by the position of its call.
pub fn spell(alloc: Global, ty: &Ty, classes: &[ClassRec]) -> Result<Vec<u8>, AllocError>
    ensures { IfOk result (λ text. text.items ≡ spelling (classes_of classes.now) (typ_of ty.now)) }
{
    let mut out = Vec::new(alloc);
    write_type(&mut out, ty, classes)?;
    Ok(out)
}

// The name of a kind of integers.
fn kind_name(kind: IntKind) -> &'static [u8]
    ensures { result.now ≡ kind_spelling kind }
{
    match kind {
        IntKind::Bool => b"bool",
        IntKind::Char => b"char",
        IntKind::SChar => b"signed char",
        IntKind::UChar => b"unsigned char",
        IntKind::Short => b"short",
        IntKind::UShort => b"unsigned short",
        IntKind::Int => b"int",
        IntKind::UInt => b"unsigned int",
        IntKind::Long => b"long",
        IntKind::ULong => b"unsigned long",
        IntKind::LLong => b"long long",
        IntKind::ULLong => b"unsigned long long",
    }
}

// A text where the flag is set.
fn write_if(out: &mut Vec<u8>, flag: bool, text: &[u8]) -> Result<(), AllocError>
    ensures { OnOk result (out.new.items ≡ out.old.items ++ where_set flag text.now) }
{
    if flag {
        out.extend_from_slice(text)?;
    }
    Ok(())
}

// The qualifiers before a type.
fn write_before(out: &mut Vec<u8>, is_const: bool, is_volatile: bool) -> Result<(), AllocError>
    ensures { OnOk result (out.new.items ≡ out.old.items ++ before is_const is_volatile) }
{
    write_if(out, is_const, b"const ")?;
    write_if(out, is_volatile, b"volatile ")
}

// The qualifiers behind a star.
fn write_behind(out: &mut Vec<u8>, is_const: bool, is_volatile: bool) -> Result<(), AllocError>
    ensures { OnOk result (out.new.items ≡ out.old.items ++ behind is_const is_volatile) }
{
    write_if(out, is_const, b" const")?;
    write_if(out, is_volatile, b" volatile")
}

// A number in decimal digits.
fn write_number(out: &mut Vec<u8>, number: u32) -> Result<(), AllocError>
    ensures { OnOk result (out.new.items ≡ out.old.items ++ decimal number) }
{
    let mut buffer = Buffer::new();
    out.extend_from_slice(buffer.format(number).as_bytes())
}

// A class by its name.
fn write_class(out: &mut Vec<u8>, class: u32, classes: &[ClassRec]) -> Result<(), AllocError>
    ensures { OnOk result (out.new.items ≡ out.old.items ++ name_of (slice_get (classes_of classes.now) class)) }
{
    match classes.get(class as usize) {
        Some(record) => out.extend_from_slice(&record.name),
        None => Ok(()),
    }
}

// A lambda by its index.
fn write_position(out: &mut Vec<u8>, at: At) -> Result<(), AllocError>
    ensures { OnOk result (out.new.items ≡ out.old.items ++ position_spelling at) }
{
    out.extend_from_slice(b"lambda:")?;
    write_number(out, at.source)?;
    out.extend_from_slice(b":")?;
    write_number(out, at.offset)
}

// A lambda's class by the position of its call.
fn write_closure(out: &mut Vec<u8>, class: u32, classes: &[ClassRec]) -> Result<(), AllocError>
    ensures { OnOk result (out.new.items ≡ out.old.items ++ closure_name (slice_get (classes_of classes.now) class)) }
{
    match classes.get(class as usize) {
        Some(record) => match record.functions.get(0) {
            Some(call) => write_position(out, call.at),
            None => Ok(()),
        },
        None => Ok(()),
    }
}

#[cycle(spell)]
fn write_type(out: &mut Vec<u8>, ty: &Ty, classes: &[ClassRec]) -> Result<(), AllocError>
    ensures { OnOk result (out.new.items ≡ out.old.items ++ spelling (classes_of classes.now) (typ_of ty.now)) }
{
    write_shape(out, &ty.shape, ty.is_const, ty.is_volatile, classes)
}

// A type of this shape with these qualifiers.
#[cycle(spell)]
fn write_shape(
    out: &mut Vec<u8>,
    shape: &Shape,
    is_const: bool,
    is_volatile: bool,
    classes: &[ClassRec],
) -> Result<(), AllocError>
    ensures { OnOk result (out.new.items ≡ out.old.items ++ form_spelling (classes_of classes.now) (shape_form shape.now) is_const is_volatile) }
{
    match shape {
        Shape::Ptr(target) => write_pointer(out, target, is_const, is_volatile, classes),
        Shape::Ref(target) => {
            write_type(out, target, classes)?;
            out.extend_from_slice(b"&")?;
            write_behind(out, is_const, is_volatile)
        }
        Shape::Array(element, count) => {
            write_shape(
                out,
                &element.shape,
                is_const || element.is_const,
                is_volatile || element.is_volatile,
                classes,
            )?;
            out.extend_from_slice(b"[")?;
            write_number(out, *count)?;
            out.extend_from_slice(b"]")
        }
        Shape::Void => {
            write_before(out, is_const, is_volatile)?;
            out.extend_from_slice(b"void")
        }
        Shape::Int(kind) => {
            write_before(out, is_const, is_volatile)?;
            out.extend_from_slice(kind_name(*kind))
        }
        Shape::Enum { name, scoped: _ } => {
            write_before(out, is_const, is_volatile)?;
            out.extend_from_slice(b"enum ")?;
            out.extend_from_slice(name)
        }
        Shape::Null => {
            write_before(out, is_const, is_volatile)?;
            out.extend_from_slice(b"std::nullptr_t")
        }
        Shape::Func(function) => {
            write_before(out, is_const, is_volatile)?;
            write_function(out, function, b"", classes)
        }
        Shape::Class(class) => {
            write_before(out, is_const, is_volatile)?;
            write_class(out, *class, classes)
        }
        Shape::Closure(class) => {
            write_before(out, is_const, is_volatile)?;
            write_closure(out, *class, classes)
        }
        Shape::TxEx(value) => {
            write_before(out, is_const, is_volatile)?;
            out.extend_from_slice(b"std::tx_exception<")?;
            write_type(out, value, classes)?;
            out.extend_from_slice(b">")
        }
    }
}

// The star of a pointer to a function.
fn star(is_const: bool, is_volatile: bool) -> &'static [u8]
    ensures { result.now ≡ codes "(*" ++ behind is_const is_volatile ++ codes ")" }
{
    match (is_const, is_volatile) {
        (false, false) => b"(*)",
        (true, false) => b"(* const)",
        (false, true) => b"(* volatile)",
        (true, true) => b"(* const volatile)",
    }
}

// A pointer with these qualifiers to a function.
#[cycle(spell)]
fn write_function_pointer(
    out: &mut Vec<u8>,
    function: &FnTy,
    is_const: bool,
    is_volatile: bool,
    classes: &[ClassRec],
) -> Result<(), AllocError>
    ensures { OnOk result (out.new.items ≡ out.old.items ++ function_spelling (classes_of classes.now) (signature_of function.now) (codes "(*" ++ behind is_const is_volatile ++ codes ")")) }
{
    write_function(out, function, star(is_const, is_volatile), classes)
}

// A pointer with these qualifiers to anything else.
#[cycle(spell)]
fn write_plain_pointer(
    out: &mut Vec<u8>,
    target: &Ty,
    is_const: bool,
    is_volatile: bool,
    classes: &[ClassRec],
) -> Result<(), AllocError>
    ensures { OnOk result (out.new.items ≡ out.old.items ++ (spelling (classes_of classes.now) (typ_of target.now) ++ (codes "*" ++ behind is_const is_volatile))) }
{
    write_shape(
        out,
        &target.shape,
        target.is_const,
        target.is_volatile,
        classes,
    )?;
    out.extend_from_slice(b"*")?;
    write_behind(out, is_const, is_volatile)
}

// A pointer with these qualifiers.
#[cycle(spell)]
fn write_pointer(
    out: &mut Vec<u8>,
    target: &Ty,
    is_const: bool,
    is_volatile: bool,
    classes: &[ClassRec],
) -> Result<(), AllocError>
    ensures { OnOk result (out.new.items ≡ out.old.items ++ pointer_spelling (classes_of classes.now) (typ_of target.now) is_const is_volatile) }
{
    match &target.shape {
        Shape::Func(function) => {
            write_function_pointer(out, function, is_const, is_volatile, classes)
        }
        _ => write_plain_pointer(out, target, is_const, is_volatile, classes),
    }
}

// A function's type, with what stands before its parameters.
#[cycle(spell)]
#[tactic(auto, using(crate::proofs::Views::signature_view))]
fn write_function(
    out: &mut Vec<u8>,
    function: &FnTy,
    before: &[u8],
    classes: &[ClassRec],
) -> Result<(), AllocError>
    ensures { OnOk result (out.new.items ≡ out.old.items ++ function_spelling (classes_of classes.now) (signature_of function.now) before.now) }
{
    write_type(out, &function.ret, classes)?;
    out.extend_from_slice(before)?;
    out.extend_from_slice(b"(")?;
    write_list(out, &function.params, classes)?;
    out.extend_from_slice(b")")?;
    write_if(out, function.safe, b" transaction_safe")
}

// Types with commas between them.
#[cycle(spell)]
fn write_list(out: &mut Vec<u8>, types: &[Ty], classes: &[ClassRec]) -> Result<(), AllocError>
    ensures { OnOk result (out.new.items ≡ out.old.items ++ listed (classes_of classes.now) false (typs_of types.now)) }
{
    for (i, ty) in types.iter().enumerate() {
        write_if(out, i > 0, b",")?;
        write_type(out, ty, classes)?;
    }
    Ok(())
}

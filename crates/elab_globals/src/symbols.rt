// Symbols of functions.

ghost use Rattle.std.specs.Prelude.{◌≡◌, ◌++◌, false, IfOk, OnOk};
ghost use Rattle.cpp_types.specs.Typ.{typ_of, typs_of};
ghost use Rattle.cpp_types.specs.Class.{classes_of, function_of};
ghost use Rattle.cpp_types.specs.Spelling.{spelling, where_set, listed};
ghost use Rattle.elab_rules.specs.elab_ctx.Ctx.{func_of};
ghost use Rattle.elab_rules.specs.Initialising.{signature_parameters};
ghost use Rattle.elab_rules.specs.Globals.{const_mark, class_prefix, closure_spelling, symbol_behind, symbol_by, symbol_of};

use cpp_types::{ClassRec, FuncRec, Shape, Ty, spell};
use elab_rules::below::{FuncDecl, FuncKind};
use std::alloc::{AllocError, Global};

fn write_type(
    alloc: Global,
    out: &mut Vec<u8>,
    ty: &Ty,
    classes: &[ClassRec],
) -> Result<(), AllocError>
    ensures { OnOk result (out.new.items ≡ out.old.items ++ spelling (classes_of classes.now) (typ_of ty.now)) }
{
    let text = spell(alloc, ty, classes)?;
    out.extend_from_slice(&text)
}

// A text where the flag is set.
fn write_if(out: &mut Vec<u8>, flag: bool, text: &[u8]) -> Result<(), AllocError>
    ensures { OnOk result (out.new.items ≡ out.old.items ++ where_set flag text.now) }
{
    if flag {
        out.extend_from_slice(text)?;
    }
    Ok(())
}

// Types with commas between them.
fn write_list(
    alloc: Global,
    out: &mut Vec<u8>,
    types: &[Ty],
    classes: &[ClassRec],
) -> Result<(), AllocError>
    ensures { OnOk result (out.new.items ≡ out.old.items ++ listed (classes_of classes.now) false (typs_of types.now)) }
{
    for (i, ty) in types.iter().enumerate() {
        write_if(out, i > 0, b",")?;
        write_type(alloc, out, ty, classes)?;
    }
    Ok(())
}

// The class of a member function, before its name.
fn write_class(
    alloc: Global,
    out: &mut Vec<u8>,
    class: Option<u32>,
    classes: &[ClassRec],
) -> Result<(), AllocError>
    ensures { OnOk result (out.new.items ≡ out.old.items ++ class_prefix (classes_of classes.now) class) }
{
    let Some(class) = class else {
        return Ok(());
    };
    let ty = Ty {
        shape: Shape::Class(class),
        is_const: false,
        is_volatile: false,
    };
    write_type(alloc, out, &ty, classes)?;
    out.extend_from_slice(b"::")
}

// The class of a lambda.
fn write_closure(
    alloc: Global,
    out: &mut Vec<u8>,
    class: Option<u32>,
    classes: &[ClassRec],
) -> Result<(), AllocError>
    ensures { OnOk result (out.new.items ≡ out.old.items ++ closure_spelling (classes_of classes.now) class) }
{
    let Some(class) = class else {
        return Ok(());
    };
    let ty = Ty {
        shape: Shape::Closure(class),
        is_const: false,
        is_volatile: false,
    };
    write_type(alloc, out, &ty, classes)
}

// The types of the parameters of a function.
#[tactic(auto, using(cpp_types::proofs::Views::signature_view))]
fn parameter_types(func: &FuncRec) -> &[Ty]
    ensures { typs_of result.now ≡ signature_parameters (function_of func.now).signature }
{
    &func.ty.params
}

// The parameters of a function.
fn write_parameters(
    alloc: Global,
    out: &mut Vec<u8>,
    func: &FuncRec,
    classes: &[ClassRec],
) -> Result<(), AllocError>
    ensures { OnOk result (out.new.items ≡ out.old.items ++ symbol_behind (classes_of classes.now) (function_of func.now)) }
{
    let types = parameter_types(func);
    out.extend_from_slice(b"(")?;
    write_list(alloc, out, types, classes)?;
    out.extend_from_slice(b")")
}

// The symbol of a function that is no lambda's body.
fn write_named(
    alloc: Global,
    out: &mut Vec<u8>,
    class: Option<u32>,
    func: &FuncRec,
    classes: &[ClassRec],
) -> Result<(), AllocError>
    ensures { OnOk result (out.new.items ≡ out.old.items ++ (class_prefix (classes_of classes.now) class ++ (func.now.name.items ++ (symbol_behind (classes_of classes.now) (function_of func.now) ++ const_mark func.now.is_const)))) }
{
    write_class(alloc, out, class, classes)?;
    out.extend_from_slice(&func.name)?;
    write_parameters(alloc, out, func, classes)?;
    write_if(out, func.is_const, b"const")
}

// The symbol of a lambda's body.
fn write_call(
    alloc: Global,
    out: &mut Vec<u8>,
    class: Option<u32>,
    func: &FuncRec,
    classes: &[ClassRec],
) -> Result<(), AllocError>
    ensures { OnOk result (out.new.items ≡ out.old.items ++ (closure_spelling (classes_of classes.now) class ++ symbol_behind (classes_of classes.now) (function_of func.now))) }
{
    write_closure(alloc, out, class, classes)?;
    write_parameters(alloc, out, func, classes)
}

fn write_symbol(
    alloc: Global,
    out: &mut Vec<u8>,
    func: &FuncDecl,
    classes: &[ClassRec],
) -> Result<(), AllocError>
    ensures { OnOk result (out.new.items ≡ out.old.items ++ symbol_of (classes_of classes.now) (func_of func.now)) }
{
    match func.kind {
        FuncKind::ClosureCall => write_call(alloc, out, func.class, &func.rec, classes),
        FuncKind::Plain | FuncKind::Constructor | FuncKind::Destructor => {
            write_named(alloc, out, func.class, &func.rec, classes)
        }
    }
}

/// The symbol of a function: its class, its name and its parameters; the call of a lambda is named by its place.
pub fn symbol_of(
    alloc: Global,
    func: &FuncDecl,
    classes: &[ClassRec],
) -> Result<Vec<u8>, AllocError>
    ensures { IfOk result (λ text. text.items ≡ symbol_of (classes_of classes.now) (func_of func.now)) }
{
    let mut out = Vec::new(alloc);
    write_symbol(alloc, &mut out, func, classes)?;
    Ok(out)
}

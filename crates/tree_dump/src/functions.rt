// Functions with their bodies.

use crate::globals::linkage_name;
use crate::kinds::Named;
use crate::nodes::{put_place, put_tree};
use crate::places::Place;
use crate::sections::Section;
use crate::texts::{put, put_if, put_number, put_type, put_word};
use cpp_tree::below::{Safety, Ty};
use cpp_tree::{FuncKind, TFunc, TNodeId, TParam, UnitTree};
use std::alloc::{AllocError, Global};

fn kind_name(kind: FuncKind) -> &'static [u8] {
    match kind {
        FuncKind::Plain => b"Plain",
        FuncKind::Constructor => b"Constructor",
        FuncKind::Destructor => b"Destructor",
        FuncKind::ClosureCall => b"ClosureCall",
    }
}

// The words that are set of a function.
fn put_flags(out: &mut Vec<u8>, func: &TFunc) -> Result<(), AllocError> {
    let rec = &func.rec;
    put_if(out, func.implicit, b" implicit")?;
    put_if(out, rec.is_const, b" const")?;
    put_if(out, rec.is_virtual, b" virtual")?;
    put_if(out, rec.is_override, b" override")?;
    put_if(out, rec.is_final, b" final")?;
    put_if(out, matches!(rec.safety, Safety::Safe), b" safe")?;
    put_if(out, matches!(rec.safety, Safety::Dynamic), b" dynamic")?;
    put_if(out, rec.considered, b" considered")?;
    put_if(out, rec.no_except, b" noexcept")
}

// The head of a function.
fn put_head(
    alloc: Global,
    out: &mut Vec<u8>,
    named: Named<'_>,
    func: &TFunc,
) -> Result<(), AllocError> {
    put(out, b"function ")?;
    put(out, &func.symbol)?;
    put(out, b"\n  ")?;
    put(out, kind_name(func.kind))?;
    put(out, b" ")?;
    put(out, linkage_name(func.linkage))?;
    put(out, b" words")?;
    put_word(out, u64::from(func.words))?;
    put_flags(out, func)?;
    put(out, b"\n  result ")?;
    put_type(alloc, out, &func.rec.ty.ret, named.classes.list)?;
    put(out, b"\n")
}

// A line for a parameter.
fn put_param(
    alloc: Global,
    out: &mut Vec<u8>,
    named: Named<'_>,
    places: &[Place],
    param: &TParam,
) -> Result<(), AllocError> {
    put(out, b"  param ")?;
    put_place(out, places, param.at)?;
    put(out, b" ")?;
    put_type(alloc, out, &param.ty, named.classes.list)?;
    put(out, b"\n")
}

// Lines for the items of a frame.
fn put_frame(
    alloc: Global,
    out: &mut Vec<u8>,
    named: Named<'_>,
    items: &[Ty],
) -> Result<(), AllocError> {
    for (i, item) in items.iter().enumerate() {
        put(out, b"  frame ")?;
        put_number(out, i as u64)?;
        put(out, b" ")?;
        put_type(alloc, out, item, named.classes.list)?;
        put(out, b"\n")?;
    }
    Ok(())
}

// A function with its body.
fn function_section(
    alloc: Global,
    unit: &UnitTree,
    named: Named<'_>,
    places: &[Place],
    func: &TFunc,
    body: TNodeId,
) -> Result<Section, AllocError> {
    let name = Vec::from_slice(alloc, &func.symbol)?;
    let mut text = Vec::new(alloc);
    put_head(alloc, &mut text, named, func)?;
    for param in &func.params {
        put_param(alloc, &mut text, named, places, param)?;
    }
    put_frame(alloc, &mut text, named, &func.frame)?;
    put_tree(alloc, &mut text, named, places, &unit.nodes, 1, body)?;
    Ok(Section { name, text })
}

/// The functions of a unit that have bodies.
pub fn function_sections(
    alloc: Global,
    unit: &UnitTree,
    named: Named<'_>,
    places: &[Place],
) -> Result<Vec<Section>, AllocError> {
    let mut list = Vec::new(alloc);
    for func in &unit.funcs {
        if let Some(body) = func.body {
            let made = function_section(alloc, unit, named, places, func, body)?;
            list.push(made)?;
        }
    }
    Ok(list)
}

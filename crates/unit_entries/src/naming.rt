//! The names that the entries of a unit use.

use crate::classes::{class_at, slot_symbol};
use crate::functions::{has_entry, inline_text};
use crate::globals::has_entry as has_global_entry;
use crate::texts::type_text;
use crate::uses::{Uses, slots_of};
use cpp_tree::below::{ClassRec, spell};
use cpp_tree::{CellKind, ClassDef, InitCell, Program, TFunc, TGlobal, UnitTree};
use std::alloc::{AllocError, Global};

fn add(alloc: Global, names: &mut Vec<Vec<u8>>, name: &[u8]) -> Result<(), AllocError> {
    let copy = Vec::from_slice(alloc, name)?;
    names.push(copy)?;
    Ok(())
}

fn add_func(
    alloc: Global,
    names: &mut Vec<Vec<u8>>,
    classes: &[ClassRec],
    defs: &[ClassDef],
    func: &TFunc,
) -> Result<(), AllocError> {
    add(alloc, names, &func.symbol)?;
    names.push(type_text(alloc, func, classes)?)?;
    if let Some(text) = inline_text(defs, func) {
        add(alloc, names, text)?;
    }
    Ok(())
}

fn add_cells(
    alloc: Global,
    names: &mut Vec<Vec<u8>>,
    cells: &[InitCell],
) -> Result<(), AllocError> {
    for cell in cells {
        match cell.what {
            CellKind::Number => {}
            CellKind::GlobalAddr | CellKind::FuncAddr => add(alloc, names, &cell.symbol)?,
        }
    }
    Ok(())
}

fn add_global(
    alloc: Global,
    names: &mut Vec<Vec<u8>>,
    classes: &[ClassRec],
    global: &TGlobal,
) -> Result<(), AllocError> {
    add(alloc, names, &global.symbol)?;
    names.push(spell(alloc, &global.ty, classes)?)?;
    if global.defined {
        add_cells(alloc, names, &global.init)?;
    }
    Ok(())
}

fn add_members(
    alloc: Global,
    names: &mut Vec<Vec<u8>>,
    classes: &[ClassRec],
    found: &ClassRec,
) -> Result<(), AllocError> {
    for member in &found.members {
        add(alloc, names, &member.name)?;
        names.push(spell(alloc, &member.ty, classes)?)?;
    }
    Ok(())
}

fn add_slots(
    alloc: Global,
    names: &mut Vec<Vec<u8>>,
    program: &Program,
    unit: &UnitTree,
    class: u32,
) -> Result<(), AllocError> {
    for slot in slots_of(program, class) {
        if let Some(symbol) = slot_symbol(&program.classes, unit, slot) {
            add(alloc, names, symbol)?;
        }
    }
    Ok(())
}

fn add_class(
    alloc: Global,
    names: &mut Vec<Vec<u8>>,
    program: &Program,
    unit: &UnitTree,
    def: &ClassDef,
) -> Result<(), AllocError> {
    let classes = program.classes.as_slice();
    let found = class_at(classes, def.class)?;
    add(alloc, names, &found.name)?;
    add(alloc, names, &def.text)?;
    if let Some(base) = found.base {
        add(alloc, names, &class_at(classes, base)?.name)?;
    }
    add_members(alloc, names, classes, found)?;
    add_slots(alloc, names, program, unit, def.class)
}

/// All names that the entries of a unit use, some more than once.
pub fn entry_names(
    alloc: Global,
    program: &Program,
    unit: &UnitTree,
    uses: &Uses,
) -> Result<Vec<Vec<u8>>, AllocError> {
    let mut names = Vec::new(alloc);
    let classes = program.classes.as_slice();
    for def in &unit.classes {
        add_class(alloc, &mut names, program, unit, def)?;
    }
    for (i, global) in unit.globals.iter().enumerate() {
        if has_global_entry(uses, global, i) {
            add_global(alloc, &mut names, classes, global)?;
        }
    }
    for (i, func) in unit.funcs.iter().enumerate() {
        if has_entry(uses, func, i) {
            add_func(alloc, &mut names, classes, &unit.classes, func)?;
        }
    }
    Ok(names)
}

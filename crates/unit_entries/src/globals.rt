//! The entries of globals.
ghost use Rattle.std.specs.Prelude.{◌≡◌, ◌++◌, ◌||◌, map, IfOk, OnOk};
ghost use Rattle.cpp_tree.specs.cpp_types.Class.{classes_of};
ghost use Rattle.cpp_tree.specs.Units.{cell_of, global_of, unit_of};
ghost use Rattle.tx_code.specs.Objects.{bytes_of, global_view};
ghost use Rattle.link_faults.specs.Faults.{text_in};
ghost use Rattle.unit_entries.specs.Records.{naming, cell_record, global_record};
ghost use Rattle.unit_entries.specs.Marked.{marks_in};
ghost use Rattle.unit_entries.specs.Uses.{is_set as is_mark_set};
ghost use Rattle.unit_entries.specs.Entries.{global_linkage as number_of_linkage, kind_number as number_of_kind, cell_symbol as symbol_of_cell, cell_entry_of, global_entry_of, global_entries_at, globals_from};

use crate::functions::Setting;
use crate::places::{place_and_one, place_of};
use crate::sizes::extent;
use crate::uses::{Uses, is_set};
use cpp_tree::below::{ClassRec, spell};
use cpp_tree::{CellKind, InitCell, Linkage, TGlobal};
use std::alloc::{AllocError, Global};
use tx_code::{ObjCell, ObjGlobal};

fn linkage_number(linkage: Linkage) -> u8
    ensures { result ≡ number_of_linkage linkage }
{
    match linkage {
        Linkage::Internal => 1,
        Linkage::External | Linkage::Inline => 0,
    }
}

fn kind_number(kind: CellKind) -> u8
    ensures { result ≡ number_of_kind kind }
{
    match kind {
        CellKind::Number => 0,
        CellKind::GlobalAddr => 1,
        CellKind::FuncAddr => 2,
    }
}

// The place of the symbol whose address a cell has, and 1.
fn symbol_place(names: &[Vec<u8>], kind: CellKind, symbol: &[u8]) -> Result<u32, AllocError>
    ensures { IfOk result (λ n. text_in (naming (map bytes_of names.now)) n ≡ symbol_of_cell kind symbol.now) }
{
    match kind {
        CellKind::Number => Ok(0),
        CellKind::GlobalAddr | CellKind::FuncAddr => place_and_one(names, symbol),
    }
}

fn cell_entry(names: &[Vec<u8>], init: &InitCell) -> Result<ObjCell, AllocError>
    ensures { IfOk result (λ c. cell_record (naming (map bytes_of names.now)) c ≡ cell_entry_of (cell_of init.now)) }
{
    Ok(ObjCell {
        offset: init.offset,
        size: init.size,
        what: kind_number(init.what),
        value: init.value,
        symbol: symbol_place(names, init.what, &init.symbol)?,
    })
}

fn cell_entries(
    alloc: Global,
    names: &[Vec<u8>],
    init: &[InitCell],
) -> Result<Vec<ObjCell>, AllocError>
    ensures { IfOk result (λ v. map (cell_record (naming (map bytes_of names.now))) v.items ≡ map cell_entry_of (map cell_of init.now)) }
{
    let mut cells = Vec::new(alloc);
    for found in init {
        cells.push(cell_entry(names, found)?)?;
    }
    Ok(cells)
}

fn global_entry(
    alloc: Global,
    names: &[Vec<u8>],
    classes: &[ClassRec],
    global: &TGlobal,
) -> Result<ObjGlobal, AllocError>
    ensures { IfOk result (λ g. global_record (naming (map bytes_of names.now)) (global_view g) ≡ global_entry_of (classes_of classes.now) (global_of global.now)) }
{
    let text = spell(alloc, &global.ty, classes)?;
    let symbol = place_of(names, &global.symbol)?;
    let ty = place_of(names, &text)?;
    let linkage = linkage_number(global.linkage);
    if !global.defined {
        return Ok(ObjGlobal {
            symbol,
            ty,
            linkage,
            defined: 0,
            size: 0,
            cells: Vec::new(alloc),
        });
    }
    Ok(ObjGlobal {
        symbol,
        ty,
        linkage,
        defined: 1,
        size: extent(&global.ty, classes)?.size,
        cells: cell_entries(alloc, names, &global.init)?,
    })
}

/// Whether a global with this index has an entry.
pub fn has_entry(uses: &Uses, global: &TGlobal, index: usize) -> bool
    ensures { result ≡ (global.now.defined || is_mark_set (marks_in uses.now).globals index) }
{
    global.defined || is_set(&uses.globals, index)
}

// Adds the entry of a global, if it has one.
fn add_global(
    alloc: Global,
    setting: Setting<'_>,
    globals: &mut Vec<ObjGlobal>,
    global: &TGlobal,
    index: usize,
) -> Result<(), AllocError>
    ensures { OnOk result (map (global_record (naming (map bytes_of setting.entry.names.now))) (map global_view globals.new.items) ≡ map (global_record (naming (map bytes_of setting.entry.names.now))) (map global_view globals.old.items) ++ global_entries_at (classes_of setting.entry.program.now.classes.items) (marks_in setting.entry.uses.now) index (global_of global.now)) }
{
    if has_entry(setting.uses, global, index) {
        let classes = setting.program.classes.as_slice();
        globals.push(global_entry(alloc, setting.names, classes, global)?)?;
    }
    Ok(())
}

/// The entries of the globals that the unit defines or refers to, in its order.
pub fn global_entries(alloc: Global, setting: Setting<'_>) -> Result<Vec<ObjGlobal>, AllocError>
    ensures { IfOk result (λ v. map (global_record (naming (map bytes_of setting.entry.names.now))) (map global_view v.items) ≡ globals_from (classes_of setting.entry.program.now.classes.items) (marks_in setting.entry.uses.now) 0 (unit_of setting.entry.unit.now).globals) }
{
    let mut globals = Vec::new(alloc);
    for (i, global) in setting.unit.globals.iter().enumerate() {
        add_global(alloc, setting, &mut globals, global, i)?;
    }
    Ok(globals)
}

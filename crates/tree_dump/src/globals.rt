// Globals with their first bytes.

use crate::kinds::Named;
use crate::referred::is_shown;
use crate::sections::Section;
use crate::texts::{put, put_number, put_type, put_word};
use cpp_tree::{CellKind, InitCell, Linkage, TGlobal, UnitTree};
use std::alloc::{AllocError, Global};

/// The name of a linkage.
pub fn linkage_name(linkage: Linkage) -> &'static [u8] {
    match linkage {
        Linkage::External => b"External",
        Linkage::Internal => b"Internal",
        Linkage::Inline => b"Inline",
    }
}

// A line for a cell.
fn put_cell(out: &mut Vec<u8>, cell: &InitCell) -> Result<(), AllocError> {
    put(out, b"  cell")?;
    put_word(out, u64::from(cell.offset))?;
    put_word(out, u64::from(cell.size))?;
    match cell.what {
        CellKind::Number => put_word(out, cell.value)?,
        CellKind::GlobalAddr | CellKind::FuncAddr => {
            put(out, b" &")?;
            put(out, &cell.symbol)?;
        }
    }
    put(out, b"\n")
}

fn is_zero(cell: &InitCell) -> bool {
    matches!(cell.what, CellKind::Number) && cell.value == 0
}

// Lines for cells, in the order in which they stand.
fn put_cells(out: &mut Vec<u8>, cells: &[InitCell]) -> Result<(), AllocError> {
    for cell in cells {
        if !is_zero(cell) {
            put_cell(out, cell)?;
        }
    }
    Ok(())
}

// A global.
fn global_section(
    alloc: Global,
    named: Named<'_>,
    global: &TGlobal,
) -> Result<Section, AllocError> {
    let name = Vec::from_slice(alloc, &global.symbol)?;
    let mut text = Vec::new(alloc);
    put(&mut text, b"global ")?;
    put(&mut text, &global.symbol)?;
    put(&mut text, b" ")?;
    put(&mut text, linkage_name(global.linkage))?;
    put(&mut text, b" ")?;
    put_type(alloc, &mut text, &global.ty, named.classes.list)?;
    put(&mut text, b"\n")?;
    put_cells(&mut text, &global.init)?;
    Ok(Section { name, text })
}

/// The globals that a unit defines, and the strings that it names.
pub fn global_sections(
    alloc: Global,
    unit: &UnitTree,
    named: Named<'_>,
) -> Result<Vec<Section>, AllocError> {
    let mut list = Vec::new(alloc);
    for (i, global) in unit.globals.iter().enumerate() {
        let Ok(index) = u32::try_from(i) else {
            return Err(AllocError);
        };
        if is_shown(unit, index, global) {
            let made = global_section(alloc, named, global)?;
            list.push(made)?;
        }
    }
    Ok(list)
}

/// Puts a number of the unit before what follows.
pub fn put_unit(out: &mut Vec<u8>, number: u64) -> Result<(), AllocError> {
    put(out, b"unit ")?;
    put_number(out, number)?;
    put(out, b"\n")
}

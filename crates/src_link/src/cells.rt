//! The first bytes of the globals (C++14 3.6.2: all are initialised before the run begins).

ghost use Rattle.std.specs.Prelude.{◌≡◌, ◌≤◌, ◌++◌, IfOk, OnOk, MatchOption, None, Some, map, slice_get};
ghost use Rattle.cpp_types.specs.Class.{InOrder, classes_of};
ghost use Rattle.cpp_tree.specs.Units.{global_of, unit_of, program_of};
ghost use Rattle.src_mean.specs.Links.{global_at as global_found, global_size, globals_end, globals_size as size_of_globals, global_place as place_of_global, func_place as place_of_func, globals_in, funcs_in, cell_value as value_of_cell, cells_at, all_cells as cells_of_kept, kept_globals as kept_of_all, global_offsets, first_cells as cells_of_all};
ghost use Rattle.src_bind.specs.Defs.{def_of, defs_of};
ghost use Rattle.src_bind.specs.Globals.{HasSize, HaveSizes};
ghost use Rattle.src_bind.specs.Bounds.{given};
ghost use Rattle.src_link.specs.Cells.{init_at};
ghost use Rattle.src_bind.specs.Tables.{CanBind, typed, linked_of};
ghost use Rattle.cpp_tree.specs.tx_events.declared.TheConstants.{GLOBALS_LIMIT};

use cpp_layout::{fn_addr, size_align};
use cpp_tree::below::GlobalCell;
use cpp_tree::{CellKind, InitCell, Program, TGlobal, UnitTree};
use cpp_types::copyability::is_name;
use src_bind::Bound;
use src_bind::defs::Found;
use src_bind::globals::offsets;
use src_bind::lists::kept_globals;
use std::alloc::{AllocError, Global};

// The first of a unit's globals with a symbol; as many as there are where none has it.
fn global_place(unit: &UnitTree, symbol: &[u8]) -> usize
    ensures { result ≡ place_of_global 0 symbol.now (unit_of unit.now).globals }
{
    for (i, global) in unit.globals.iter().enumerate() {
        if is_name(symbol, &global.symbol) {
            return i;
        }
    }
    unit.globals.len()
}

// The first of a unit's functions with a symbol; as many as there are where none has it.
fn func_place(unit: &UnitTree, symbol: &[u8]) -> usize
    ensures { result ≡ place_of_func 0 symbol.now (unit_of unit.now).funcs }
{
    for (i, func) in unit.funcs.iter().enumerate() {
        if is_name(symbol, &func.symbol) {
            return i;
        }
    }
    unit.funcs.len()
}

// A place as a number of 32 bits. More count as want of memory.
fn numbered(place: usize) -> Result<u32, AllocError>
    ensures { IfOk result (λ n. n ≡ place) }
{
    match u32::try_from(place) {
        Ok(number) => Ok(number),
        Err(_) => Err(AllocError),
    }
}

// The value of a cell; an address names its symbol as its unit does.
fn cell_value(
    bound: &Bound<'_>,
    unit: u32,
    tree: &UnitTree,
    cell: &InitCell,
) -> Result<u64, AllocError>
    requires globals { globals_in (typed (given bound.now)) unit ≡ (unit_of tree.now).globals }
    requires funcs { funcs_in (typed (given bound.now)) unit ≡ (unit_of tree.now).funcs }
    ensures { IfOk result (λ w. w ≡ value_of_cell (typed (given bound.now)) (linked_of (given bound.now)) unit cell.now.what cell.now.value cell.now.symbol.items) }
{
    match cell.what {
        CellKind::Number => Ok(cell.value),
        CellKind::GlobalAddr => {
            let place = numbered(global_place(tree, &cell.symbol))?;
            Ok(bound.global(unit, place).wrapping_add(cell.value))
        }
        CellKind::FuncAddr => {
            let place = numbered(func_place(tree, &cell.symbol))?;
            Ok(fn_addr(bound.number(unit, place)))
        }
    }
}

// The cells of a global that lies at this offset.
fn add_cells(
    bound: &Bound<'_>,
    unit: u32,
    tree: &UnitTree,
    global: &TGlobal,
    offset: u32,
    cells: &mut Vec<GlobalCell>,
) -> Result<(), AllocError>
    requires globals { globals_in (typed (given bound.now)) unit ≡ (unit_of tree.now).globals }
    requires funcs { funcs_in (typed (given bound.now)) unit ≡ (unit_of tree.now).funcs }
    ensures { OnOk result (cells.new.items ≡ cells.old.items ++ cells_at (typed (given bound.now)) (linked_of (given bound.now)) unit offset (global_of global.now).init) }
{
    for cell in &global.init {
        let Some(lies_at) = offset.checked_add(cell.offset) else {
            return Err(AllocError);
        };
        let value = cell_value(bound, unit, tree, cell)?;
        cells.push(GlobalCell {
            offset: lies_at,
            size: cell.size,
            value,
        })?;
    }
    Ok(())
}

// The unit with this index.
fn unit_at(program: &Program, unit: u32) -> Option<&UnitTree>
    ensures { MatchOption result (slice_get (program_of program.now).units unit ≡ None) (λ x. slice_get (program_of program.now).units unit ≡ Some (unit_of x.now)) }
{
    program.units.get(unit as usize)
}

// The global of a unit with this index.
fn global_in(tree: &UnitTree, place: u32) -> Option<&TGlobal>
    ensures { MatchOption result (slice_get (unit_of tree.now).globals place ≡ None) (λ g. slice_get (unit_of tree.now).globals place ≡ Some (global_of g.now)) }
{
    tree.globals.get(place as usize)
}

// The cells of the global with these indexes.
fn add_global(
    bound: &Bound<'_>,
    program: &Program,
    unit: u32,
    place: u32,
    offset: u32,
    cells: &mut Vec<GlobalCell>,
) -> Result<(), AllocError>
    requires { program.now ≡ (given bound.now).program }
    ensures { OnOk result (cells.new.items ≡ cells.old.items ++ cells_at (typed (given bound.now)) (linked_of (given bound.now)) unit offset (init_at (typed (given bound.now)) unit place)) }
{
    let Some(tree) = unit_at(program, unit) else {
        return Ok(());
    };
    let Some(global) = global_in(tree, place) else {
        return Ok(());
    };
    add_cells(bound, unit, tree, global, offset, cells)
}

// The first bytes of these globals, which lie at these offsets.
fn all_cells(
    alloc: Global,
    bound: &Bound<'_>,
    program: &Program,
    kept: &[Found<'_>],
    offsets: &[u32],
) -> Result<Vec<GlobalCell>, AllocError>
    requires { program.now ≡ (given bound.now).program }
    ensures { IfOk result (λ v. v.items ≡ cells_of_kept (typed (given bound.now)) (linked_of (given bound.now)) (defs_of kept.now) offsets.now) }
{
    let mut cells = Vec::new(alloc);
    for (i, def) in kept.iter().enumerate() {
        let Some(offset) = offsets.get(i) else {
            return Ok(cells);
        };
        add_global(bound, program, def.unit, def.place, *offset, &mut cells)?;
    }
    Ok(cells)
}

// The same of all globals that are kept of this program.
fn cells_of(
    alloc: Global,
    bound: &Bound<'_>,
    program: &Program,
) -> Result<Vec<GlobalCell>, AllocError>
    requires same { program.now ≡ (given bound.now).program }
    requires can { CanBind (program_of program.now) }
    ensures { IfOk result (λ v. v.items ≡ cells_of_kept (typed (given bound.now)) (linked_of (given bound.now)) (kept_of_all (program_of program.now)) (global_offsets 0 (map (global_size (program_of program.now)) (kept_of_all (program_of program.now))))) }
{
    let kept = kept_globals(alloc, program)?;
    let globals = kept.as_slice();
    let lie = offsets(alloc, program, globals)?;
    all_cells(alloc, bound, program, globals, lie.as_slice())
}

/// The first bytes of all globals that are kept.
pub fn first_cells(alloc: Global, bound: &Bound<'_>) -> Result<Vec<GlobalCell>, AllocError>
    requires { CanBind (typed (given bound.now)) }
    ensures { IfOk result (λ v. v.items ≡ cells_of_all (typed (given bound.now)) (linked_of (given bound.now))) }
{
    cells_of(alloc, bound, bound.program())
}

// The global with these indexes.
pub(crate) fn global_at(program: &Program, unit: u32, place: u32) -> Option<&TGlobal>
    ensures { MatchOption result (global_found (program_of program.now) unit place ≡ None) (λ g. global_found (program_of program.now) unit place ≡ Some (global_of g.now)) }
{
    match program.units.get(unit as usize) {
        Some(tree) => tree.globals.get(place as usize),
        None => None,
    }
}

// The size of a global; 0 where there is none.
fn size_at(program: &Program, def: &Found<'_>) -> u32
    requires in_order { InOrder (classes_of program.now.classes.items) }
    requires sized { HasSize (program_of program.now) (def_of def.now) }
    ensures { result ≡ global_size (program_of program.now) (def_of def.now) }
{
    let Some(global) = global_at(program, def.unit, def.place) else {
        return 0;
    };
    let Ok(found) = size_align(&global.ty, &program.classes) else {
        unreachable!()
    };
    found.size
}

// Where globals end that lie each at the next multiple of 8.
fn end_of(program: &Program, kept: &[Found<'_>]) -> u32
    requires in_order { InOrder (classes_of program.now.classes.items) }
    requires sized { HaveSizes (program_of program.now) (defs_of kept.now) }
    requires total { globals_end 0 (map (global_size (program_of program.now)) (defs_of kept.now)) ≤ GLOBALS_LIMIT }
    ensures { result ≡ globals_end 0 (map (global_size (program_of program.now)) (defs_of kept.now)) }
{
    let mut end = 0;
    for def in kept {
        let start = (end + 7) / 8 * 8;
        end = start + size_at(program, def);
    }
    end
}

/// How many bytes the globals take.
pub fn globals_size(alloc: Global, program: &Program) -> Result<u32, AllocError>
    requires { CanBind (program_of program.now) }
    ensures size { IfOk result (λ n. n ≡ size_of_globals (program_of program.now)) }
    ensures within { IfOk result (λ n. n ≤ GLOBALS_LIMIT) }
{
    let kept = kept_globals(alloc, program)?;
    Ok(end_of(program, kept.as_slice()))
}

//! Classes, globals and functions.
ghost use Rattle.std.specs.Prelude.{◌≡◌, ◌<◌, ◌&&◌, ◌||◌, ◌+◌, ◌*◌, ◌^◌, true, map, length, nat_eq, nat_lt, nat_le, is_some, if◌then◌else◌, IsTrue};
ghost use Rattle.std.specs.List.{list_all};
ghost use Rattle.tx_code.specs.Objects.{class_view, global_view, func_view};
ghost use Rattle.tx_code.specs.WellFormed.{is_name as is_name_of, is_name_or_none as is_name_or_none_of, member_fits as fits_member, class_fits as fits_class, is_cell_size as is_size_of_cell, is_multiple, same, cell_kind_fits as fits_kind, cell_fits as fits_cell, global_fits as fits_global, bit, flags_fit as fit_flags, text_fits as fits_text, is_defined as is_defined_func, has_safe, func_fits as fits_func};

use crate::bodies::{is_count, some_fits};
use crate::order::cells_ascend;
use tx_code::{ObjCell, ObjClass, ObjFunc, ObjGlobal, ObjMember};

fn is_name(names: usize, name: u32) -> bool
    ensures { result ≡ is_name_of names name }
{
    (name as usize) < names
}

fn is_name_or_none(names: usize, name: u32) -> bool
    ensures { result ≡ is_name_or_none_of names name }
{
    name as usize <= names
}

fn members_fit(names: usize, members: &[ObjMember]) -> bool
    ensures { result ≡ list_all (fits_member names) members.now }
{
    for member in members {
        if !(is_name(names, member.name) && is_name(names, member.ty)) {
            return false;
        }
    }
    true
}

fn slots_fit(names: usize, slots: &[u32]) -> bool
    ensures { result ≡ list_all (is_name_or_none_of names) slots.now }
{
    for slot in slots {
        if !is_name_or_none(names, *slot) {
            return false;
        }
    }
    true
}

fn class_fits(names: usize, class: &ObjClass) -> bool
    ensures { result ≡ fits_class names (class_view class.now) }
{
    is_name(names, class.name)
        && is_name_or_none(names, class.base)
        && is_name(names, class.text)
        && is_count(class.members.len())
        && members_fit(names, &class.members)
        && is_count(class.slots.len())
        && slots_fit(names, &class.slots)
}

/// Whether the classes are as an object has them, their order and bases aside.
pub fn classes_fit(names: usize, classes: &[ObjClass]) -> bool
    ensures { result ≡ list_all (fits_class names) (map class_view classes.now) }
{
    for class in classes {
        if !class_fits(names, class) {
            return false;
        }
    }
    true
}

// Whether a cell of this size lies at a multiple of it within its global.
fn is_cell_placed(cell: &ObjCell, size: u32) -> bool
    ensures { result ≡ (is_size_of_cell cell.now.size && is_multiple cell.now.offset cell.now.size && nat_le (cell.now.offset + cell.now.size) size) }
{
    (cell.size == 1 || cell.size == 2 || cell.size == 4 || cell.size == 8)
        && cell.offset % u32::from(cell.size) == 0
        && u64::from(cell.offset) + u64::from(cell.size) <= u64::from(size)
}

fn kind_fits(cell: &ObjCell) -> bool
    ensures { result ≡ fits_kind cell.now }
{
    cell.what < 3 && (cell.what == 0 || cell.size == 8)
}

// Whether a number fits a cell of this size, of 1, 2, 4 or 8 bytes.
fn value_fits(size: u8, value: u64) -> bool
    requires { is_size_of_cell size ≡ true }
    ensures { result ≡ nat_lt value (2 ^ (8 * size)) }
{
    match size {
        1 => value < 1 << 8,
        2 => value < 1 << 16,
        4 => value < 1 << 32,
        _ => true,
    }
}

// Whether an address has a symbol, and a number none.
fn symbol_fits(cell: &ObjCell) -> bool
    ensures { result ≡ (if nat_eq cell.now.what 0 then nat_eq cell.now.symbol 0 else nat_lt 0 cell.now.symbol) }
{
    if cell.what == 0 {
        cell.symbol == 0
    } else {
        0 < cell.symbol
    }
}

fn cell_fits(names: usize, size: u32, cell: &ObjCell) -> bool
    ensures { result ≡ fits_cell names size cell.now }
{
    is_cell_placed(cell, size)
        && kind_fits(cell)
        && value_fits(cell.size, cell.value)
        && is_name_or_none(names, cell.symbol)
        && symbol_fits(cell)
}

fn cells_fit(names: usize, size: u32, cells: &[ObjCell]) -> bool
    ensures { result ≡ list_all (fits_cell names size) cells.now }
{
    for cell in cells {
        if !cell_fits(names, size, cell) {
            return false;
        }
    }
    true
}

// Whether an undefined global has neither size nor cells, and a defined one a size.
fn definition_fits(global: &ObjGlobal) -> bool
    ensures { result ≡ (if nat_eq global.now.defined 0 then nat_eq global.now.size 0 && nat_eq (length global.now.cells.items) 0 else nat_lt 0 global.now.size) }
{
    if global.defined == 0 {
        global.size == 0 && global.cells.len() == 0
    } else {
        0 < global.size
    }
}

fn global_fits(names: usize, global: &ObjGlobal) -> bool
    ensures { result ≡ fits_global names (global_view global.now) }
{
    is_name(names, global.symbol)
        && is_name(names, global.ty)
        && global.linkage < 2
        && global.defined < 2
        && is_count(global.cells.len())
        && cells_fit(names, global.size, &global.cells)
        && cells_ascend(&global.cells)
        && definition_fits(global)
}

/// Whether the globals are as an object has them, their order aside.
pub fn globals_fit(names: usize, globals: &[ObjGlobal]) -> bool
    ensures { result ≡ list_all (fits_global names) (map global_view globals.now) }
{
    for global in globals {
        if !global_fits(names, global) {
            return false;
        }
    }
    true
}

fn has_bit(flags: u8, n: u8) -> bool
    requires { n < 2 }
    ensures { result ≡ bit n flags }
{
    if n == 0 {
        flags % 2 == 1
    } else {
        flags / 2 % 2 == 1
    }
}

fn flags_fit(flags: u8) -> bool
    ensures { result ≡ fit_flags flags }
{
    flags < 16 && (!has_bit(flags, 1) || has_bit(flags, 0))
}

// Whether an inline definition has its text, and anything else none.
fn text_fits(names: usize, func: &ObjFunc) -> bool
    ensures { result ≡ fits_text names (func_view func.now) }
{
    is_name_or_none(names, func.text)
        && (func.linkage == 2 && has_bit(func.flags, 0)) == (0 < func.text)
}

// Whether a defined function has a body and an undefined one no frame, and whether it has a safe body where it says so.
fn bodies_stand(func: &ObjFunc) -> bool
    ensures { result ≡ ((is_defined_func (func_view func.now) || nat_eq func.now.frame 0) && same (is_defined_func (func_view func.now)) (is_some func.now.plain) && same (has_safe (func_view func.now)) (is_some func.now.safe)) }
{
    let defined = has_bit(func.flags, 0);
    (defined || func.frame == 0)
        && defined == func.plain.is_some()
        && has_bit(func.flags, 1) == func.safe.is_some()
}

fn func_fits(version: u32, names: usize, func: &ObjFunc) -> bool
    ensures { IsTrue result → fits_func version names (func_view func.now) ≡ true }
{
    is_name(names, func.symbol)
        && is_name(names, func.ty)
        && func.linkage < 3
        && flags_fit(func.flags)
        && text_fits(names, func)
        && bodies_stand(func)
        && some_fits(version, names, &func.plain)
        && some_fits(version, names, &func.safe)
}

/// Whether the functions are as an object has them, their order aside.
pub fn funcs_fit(version: u32, names: usize, funcs: &[ObjFunc]) -> bool
    ensures { IsTrue result → list_all (fits_func version names) (map func_view funcs.now) ≡ true }
{
    for func in funcs {
        if !func_fits(version, names, func) {
            return false;
        }
    }
    true
}

//! What a unit refers to.
ghost use Rattle.std.specs.Prelude.{◌≡◌, ◌<◌, ◌||◌, true, false, map, length, replicate, cond, slice_set, unwrap_or, MatchOption, None, Some, IfOk, OnOk, List};
ghost use Rattle.cpp_tree.specs.cpp_types.Class.{Function, classes_of, function_of};
ghost use Rattle.cpp_tree.specs.cpp_types.Typ.{signature_of};
ghost use Rattle.cpp_tree.specs.cpp_types.Equal.{signature_eq};
ghost use Rattle.cpp_tree.specs.Trees.{Tree};
ghost use Rattle.cpp_tree.specs.Arena.{trees_of};
ghost use Rattle.cpp_tree.specs.Units.{Func, func_of, global_of, slot_of, cell_of, definition_of, unit_of, program_of};
ghost use Rattle.unit_entries.specs.Uses.{Marks, is_set as is_mark_set, with_func, with_global, with_call, slot_function as function_in_slot, is_that as is_that_function, index_among, slot_index as index_of_slot, slots_in, noted_slots, noted_classes, global_among, func_among, noted_cell, noted_cells, noted_globals, no_marks, marks_of as marks_of_unit};
ghost use Rattle.unit_entries.specs.Marked.{marks_in};
ghost use Rattle.unit_entries.specs.Entries.{is_pure as is_pure_function};

use crate::bodies::note_bodies;
use cpp_tree::below::{ClassRec, FnTy, FuncRec};
use cpp_tree::{CellKind, ClassDef, InitCell, Program, SlotRec, TFunc, TGlobal, UnitTree};
use cpp_types::copyability::is_name;
use cpp_types::{equal_lists, equal_types};
use std::alloc::{AllocError, Global};

/// What a unit refers to, by the indexes of its lists.
#[derive(Drop)]
pub struct Uses {
    pub funcs: Vec<bool>,
    pub globals: Vec<bool>,
    /// The functions that are called in an atomic block or a safe function.
    pub wanted: Vec<bool>,
}

// So many marks that are not set.
fn unmarked(alloc: Global, count: usize) -> Result<Vec<bool>, AllocError>
    ensures { IfOk result (λ marks. marks.items ≡ replicate count false) }
{
    let mut marks = Vec::new(alloc);
    for _passed in 0..count {
        marks.push(false)?;
    }
    Ok(marks)
}

// Sets a mark, if it is there.
fn set(marks: &mut Vec<bool>, index: usize)
    ensures { marks.new.items ≡ slice_set marks.old.items index true }
{
    if let Some(mark) = marks.get_mut(index) {
        *mark = true;
    }
}

/// Whether a mark is set.
pub fn is_set(marks: &[bool], index: usize) -> bool
    ensures { result ≡ is_mark_set marks.now index }
{
    match marks.get(index) {
        Some(mark) => *mark,
        None => false,
    }
}

/// A function is referred to.
pub(crate) fn note_func(uses: &mut Uses, func: usize)
    ensures { marks_in uses.new ≡ with_func func (marks_in uses.old) }
{
    set(&mut uses.funcs, func);
}

/// A global is referred to.
pub(crate) fn note_global(uses: &mut Uses, global: usize)
    ensures { marks_in uses.new ≡ with_global global (marks_in uses.old) }
{
    set(&mut uses.globals, global);
}

/// A function is called, perhaps inside an atomic block or a safe function.
pub(crate) fn note_call(uses: &mut Uses, func: usize, inside: bool)
    ensures { marks_in uses.new ≡ with_call inside func (marks_in uses.old) }
{
    set(&mut uses.funcs, func);
    if inside {
        set(&mut uses.wanted, func);
    }
}

// The function in a slot, as its class has it.
fn slot_function<'a>(classes: &'a [ClassRec], slot: &SlotRec) -> Option<&'a FuncRec>
    ensures { MatchOption result (function_in_slot (classes_of classes.now) (slot_of slot.now) ≡ None) (λ f. function_in_slot (classes_of classes.now) (slot_of slot.now) ≡ Some (function_of f.now)) }
{
    match classes.get(slot.class as usize) {
        Some(class) => class.functions.get(slot.func as usize),
        None => None,
    }
}

/// Whether the function in a slot is pure.
pub fn is_pure(classes: &[ClassRec], slot: &SlotRec) -> bool
    ensures { result ≡ is_pure_function (function_in_slot (classes_of classes.now) (slot_of slot.now)) }
{
    match slot_function(classes, slot) {
        Some(found) => found.pure_virtual,
        None => false,
    }
}

// Whether two types of functions are one.
#[tactic(auto, using(cpp_types::proofs::Views::signature_view))]
fn equal_functions(a: &FnTy, b: &FnTy) -> bool
    ensures { result ≡ signature_eq (signature_of a.now) (signature_of b.now) }
{
    a.safe == b.safe && equal_types(&a.ret, &b.ret) && equal_lists(&a.params, &b.params)
}

// Whether a function of a unit is that function of a class.
fn is_that(func: &TFunc, class: u32, found: &FuncRec) -> bool
    ensures { result ≡ is_that_function class (function_of found.now) func.now.class (function_of func.now.rec) }
{
    match func.class {
        Some(other) => {
            other == class
                && is_name(&func.rec.name, &found.name)
                && func.rec.is_const == found.is_const
                && equal_functions(&func.rec.ty, &found.ty)
        }
        None => false,
    }
}

// The index of a function of a class among those of a unit.
fn index_in(funcs: &[TFunc], class: u32, found: &FuncRec) -> Option<usize>
    ensures { (trees : List Tree) → result ≡ index_among class (function_of found.now) 0 (map (func_of trees) funcs.now) }
{
    for (i, func) in funcs.iter().enumerate() {
        if is_that(func, class, found) {
            return Some(i);
        }
    }
    None
}

/// The index of the unit's function in a slot of a class.
pub fn slot_index(classes: &[ClassRec], funcs: &[TFunc], slot: &SlotRec) -> Option<usize>
    ensures { (trees : List Tree) → result ≡ index_of_slot (classes_of classes.now) (map (func_of trees) funcs.now) (slot_of slot.now) }
{
    match slot_function(classes, slot) {
        Some(found) => index_in(funcs, slot.class, found),
        None => None,
    }
}

/// The slots of a class.
pub fn slots_of(program: &Program, class: u32) -> &[SlotRec]
    ensures { map slot_of result.now ≡ slots_in (program_of program.now).slots class }
{
    match program.slots.get(class as usize) {
        Some(slots) => slots.as_slice(),
        None => &[],
    }
}

// Notes the functions in slots.
fn note_slots(uses: &mut Uses, classes: &[ClassRec], funcs: &[TFunc], slots: &[SlotRec])
    ensures { (trees : List Tree) → marks_in uses.new ≡ noted_slots (classes_of classes.now) (map (func_of trees) funcs.now) (map slot_of slots.now) (marks_in uses.old) }
{
    for slot in slots {
        if let Some(index) = slot_index(classes, funcs, slot) {
            note_func(uses, index);
        }
    }
}

// Notes the functions in the slots of the unit's classes.
fn note_classes(uses: &mut Uses, program: &Program, funcs: &[TFunc], defs: &[ClassDef])
    ensures { (trees : List Tree) → marks_in uses.new ≡ noted_classes (program_of program.now) (map (func_of trees) funcs.now) (map definition_of defs.now) (marks_in uses.old) }
{
    for def in defs {
        note_slots(uses, &program.classes, funcs, slots_of(program, def.class));
    }
}

// The index of the global with this symbol.
fn global_index(globals: &[TGlobal], symbol: &[u8]) -> Option<usize>
    ensures { result ≡ global_among symbol.now 0 (map global_of globals.now) }
{
    for (i, global) in globals.iter().enumerate() {
        if is_name(&global.symbol, symbol) {
            return Some(i);
        }
    }
    None
}

// The index of the function with this symbol.
fn func_index(funcs: &[TFunc], symbol: &[u8]) -> Option<usize>
    ensures { (trees : List Tree) → result ≡ func_among symbol.now 0 (map (func_of trees) funcs.now) }
{
    for (i, func) in funcs.iter().enumerate() {
        if is_name(&func.symbol, symbol) {
            return Some(i);
        }
    }
    None
}

// Notes the global or the function whose address a cell has.
fn note_cell(uses: &mut Uses, unit: &UnitTree, cell: &InitCell)
    ensures { marks_in uses.new ≡ noted_cell (unit_of unit.now) cell.now.what cell.now.symbol.items (marks_in uses.old) }
{
    match cell.what {
        CellKind::Number => {}
        CellKind::GlobalAddr => {
            if let Some(index) = global_index(&unit.globals, &cell.symbol) {
                note_global(uses, index);
            }
        }
        CellKind::FuncAddr => {
            if let Some(index) = func_index(&unit.funcs, &cell.symbol) {
                note_func(uses, index);
            }
        }
    }
}

// Notes the globals and functions whose addresses a global has.
fn note_cells(uses: &mut Uses, unit: &UnitTree, cells: &[InitCell])
    ensures { marks_in uses.new ≡ noted_cells (unit_of unit.now) (map cell_of cells.now) (marks_in uses.old) }
{
    for cell in cells {
        note_cell(uses, unit, cell);
    }
}

// The same of all globals.
fn note_globals(uses: &mut Uses, unit: &UnitTree)
    ensures { marks_in uses.new ≡ noted_globals (unit_of unit.now) (unit_of unit.now).globals (marks_in uses.old) }
{
    for global in &unit.globals {
        note_cells(uses, unit, &global.init);
    }
}

// Nothing is referred to yet.
fn no_uses(alloc: Global, unit: &UnitTree) -> Result<Uses, AllocError>
    ensures { IfOk result (λ u. marks_in u ≡ no_marks (unit_of unit.now)) }
{
    Ok(Uses {
        funcs: unmarked(alloc, unit.funcs.len())?,
        globals: unmarked(alloc, unit.globals.len())?,
        wanted: unmarked(alloc, unit.funcs.len())?,
    })
}

/// What a unit refers to, where these of its functions are safe. Nodes whose kids do not stand before them count as want
/// of memory.
pub fn uses_of(
    alloc: Global,
    program: &Program,
    unit: &UnitTree,
    safe: &[bool],
) -> Result<Uses, AllocError>
    ensures { IfOk result (λ u. marks_in u ≡ marks_of_unit (program_of program.now) (unit_of unit.now) safe.now) }
{
    let mut uses = no_uses(alloc, unit)?;
    note_bodies(&mut uses, unit, safe)?;
    note_classes(&mut uses, program, &unit.funcs, &unit.classes);
    note_globals(&mut uses, unit);
    Ok(uses)
}

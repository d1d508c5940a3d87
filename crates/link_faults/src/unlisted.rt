//! Slots and cells that name what their object has no entry of.
ghost use Rattle.std.specs.Prelude.{◌≡◌, ◌<◌, ◌≤◌, ◌||◌, nat_eq, if◌then◌else◌, ◌++◌, ◌∷◌, List, ℕ, Bool, true, [], map, length, IfOk, IfSome, Some, slice_get};
ghost use Rattle.std.specs.List.{All, list_all, list_any};
ghost use Rattle.tx_code.specs.Objects.{bytes_of, class_view, global_view, object_view};
ghost use Rattle.tx_code.specs.WellFormed.{class_fits, global_fits, cell_fits, is_name_or_none, IsObject};
ghost use Rattle.link_faults.specs.Disputes.{IsLeast};
ghost use Rattle.link_faults.specs.Ranks.{Known};
ghost use Rattle.link_faults.specs.Unlisted.{AreMarks, func_symbols, global_symbols, is_unlisted, rank_below, misses_slot, misses_slots, misses_cell, misses_cells, misses_in, misses_any, AreListed, is_cell_name};

use crate::disputes::with_name;
use crate::entries::name_rank;
use std::alloc::{AllocError, Global};
use tx_code::{ObjCell, ObjClass, ObjGlobal, Object};

/// The symbols of an object's functions and those of its globals, as marks on its names.
#[derive(Drop)]
struct Listed {
    funcs: Vec<bool>,
    globals: Vec<bool>,
}

fn no_marks(alloc: Global, names: usize) -> Result<Vec<bool>, AllocError>
    ensures marks { IfOk result (λ v. AreMarks [] v.items) }
    ensures length { IfOk result (λ v. length v.items ≡ names) }
{
    vec![in alloc; false; names]
}

fn mark(marks: &mut Vec<bool>, name: u32)
    requires { name < length marks.old.items }
    ensures marks { (symbols : List ℕ) → AreMarks symbols marks.old.items → AreMarks (symbols ++ name ∷ []) marks.new.items }
    ensures length { length marks.new.items ≡ length marks.old.items }
{
    marks[name as usize] = true;
}

fn listed_funcs(alloc: Global, object: &Object) -> Result<Vec<bool>, AllocError>
    requires { IsObject (object_view object.now) }
    ensures marks { IfOk result (λ v. AreMarks (func_symbols (object_view object.now)) v.items) }
    ensures length { IfOk result (λ v. length v.items ≡ length object.now.names.items) }
{
    let mut marks = no_marks(alloc, object.names.len())?;
    for func in &object.funcs {
        mark(&mut marks, func.symbol);
    }
    Ok(marks)
}

fn listed_globals(alloc: Global, object: &Object) -> Result<Vec<bool>, AllocError>
    requires { IsObject (object_view object.now) }
    ensures marks { IfOk result (λ v. AreMarks (global_symbols (object_view object.now)) v.items) }
    ensures length { IfOk result (λ v. length v.items ≡ length object.now.names.items) }
{
    let mut marks = no_marks(alloc, object.names.len())?;
    for global in &object.globals {
        mark(&mut marks, global.symbol);
    }
    Ok(marks)
}

/// Whether a name is there and not marked: its number plus 1, or 0.
fn is_unmarked(marks: &[bool], name: u32) -> bool
    requires { name ≤ length marks.now }
    ensures { (symbols : List ℕ) → AreMarks symbols marks.now → result ≡ is_unlisted symbols name }
{
    if name == 0 {
        return false;
    }
    !marks[name as usize - 1]
}

fn rank_of_name(all: &[Vec<u8>], object: &Object, name: u32) -> u32
    requires known { Known (map bytes_of all.now) (object_view object.now) }
    requires named { name ≤ length object.now.names.items }
    ensures { result ≡ rank_below (map bytes_of all.now) (object_view object.now) name }
{
    if name == 0 {
        return 0;
    }
    name_rank(all, object, name - 1)
}

/// The least name, with those of slots that the object has no function of.
fn with_slots(
    least: Option<u32>,
    all: &[Vec<u8>],
    object: &Object,
    funcs: &[bool],
    slots: &[u32],
) -> Option<u32>
    requires known { Known (map bytes_of all.now) (object_view object.now) }
    requires marks { AreMarks (func_symbols (object_view object.now)) funcs.now }
    requires names { length funcs.now ≡ length object.now.names.items }
    requires fit { list_all (is_name_or_none (length object.now.names.items)) slots.now ≡ true }
    ensures least { (p : ℕ → Bool) → IsLeast p least → IsLeast (λ k. p k || list_any (misses_slot (map bytes_of all.now) (object_view object.now) k) slots.now) result }
    ensures within { IfSome least (λ k. k < length all.now) → IfSome result (λ k. k < length all.now) }
{
    let mut found = least;
    for slot in slots {
        let name = rank_of_name(all, object, *slot);
        let missing = is_unmarked(funcs, *slot);
        found = with_name(found, name, missing);
    }
    found
}

/// Whether a cell names what its object has no entry of.
fn is_missing_cell(listed: &Listed, cell: ObjCell) -> bool
    requires funcs { cell.symbol ≤ length listed.now.funcs.items }
    requires globals { cell.symbol ≤ length listed.now.globals.items }
    ensures { (funcs globals : List ℕ) → AreMarks funcs listed.now.funcs.items → AreMarks globals listed.now.globals.items → result ≡ (if nat_eq cell.what 2 then is_unlisted funcs cell.symbol else is_unlisted globals cell.symbol) }
{
    if cell.what == 2 {
        is_unmarked(&listed.funcs, cell.symbol)
    } else {
        is_unmarked(&listed.globals, cell.symbol)
    }
}

/// The least name, with those of cells that the object has no entry of.
fn with_cells(
    least: Option<u32>,
    all: &[Vec<u8>],
    object: &Object,
    listed: &Listed,
    cells: &[ObjCell],
) -> Option<u32>
    requires known { Known (map bytes_of all.now) (object_view object.now) }
    requires listed { AreListed (object_view object.now) listed.now }
    requires fit { list_all (is_cell_name (length object.now.names.items)) cells.now ≡ true }
    ensures least { (p : ℕ → Bool) → IsLeast p least → IsLeast (λ k. p k || list_any (misses_cell (map bytes_of all.now) (object_view object.now) k) cells.now) result }
    ensures within { IfSome least (λ k. k < length all.now) → IfSome result (λ k. k < length all.now) }
{
    let mut found = least;
    for cell in cells {
        let name = rank_of_name(all, object, cell.symbol);
        let missing = is_missing_cell(listed, *cell);
        found = with_name(found, name, missing);
    }
    found
}

fn with_classes(
    least: Option<u32>,
    all: &[Vec<u8>],
    object: &Object,
    listed: &Listed,
) -> Option<u32>
    requires known { Known (map bytes_of all.now) (object_view object.now) }
    requires listed { AreListed (object_view object.now) listed.now }
    ensures least { (p : ℕ → Bool) → IsLeast p least → IsLeast (λ k. p k || list_any (misses_slots (map bytes_of all.now) (object_view object.now) k) (object_view object.now).classes) result }
    ensures within { IfSome least (λ k. k < length all.now) → IfSome result (λ k. k < length all.now) }
{
    let mut found = least;
    for class in &object.classes {
        found = with_slots(found, all, object, &listed.funcs, &class.slots);
    }
    found
}

fn with_globals(
    least: Option<u32>,
    all: &[Vec<u8>],
    object: &Object,
    listed: &Listed,
) -> Option<u32>
    requires known { Known (map bytes_of all.now) (object_view object.now) }
    requires listed { AreListed (object_view object.now) listed.now }
    ensures least { (p : ℕ → Bool) → IsLeast p least → IsLeast (λ k. p k || list_any (misses_cells (map bytes_of all.now) (object_view object.now) k) (object_view object.now).globals) result }
    ensures within { IfSome least (λ k. k < length all.now) → IfSome result (λ k. k < length all.now) }
{
    let mut found = least;
    for global in &object.globals {
        found = with_cells(found, all, object, listed, &global.cells);
    }
    found
}

fn listed_in(alloc: Global, object: &Object) -> Result<Listed, AllocError>
    requires { IsObject (object_view object.now) }
    ensures { IfOk result (AreListed (object_view object.now)) }
{
    let funcs = listed_funcs(alloc, object)?;
    let globals = listed_globals(alloc, object)?;
    Ok(Listed { funcs, globals })
}

/// The least name, with those that an object names and has no entry of.
fn with_object(
    alloc: Global,
    least: Option<u32>,
    all: &[Vec<u8>],
    object: &Object,
) -> Result<Option<u32>, AllocError>
    requires { Known (map bytes_of all.now) (object_view object.now) }
    ensures least { IfOk result (λ r. (p : ℕ → Bool) → IsLeast p least → IsLeast (λ k. p k || misses_in (map bytes_of all.now) k (object_view object.now)) r) }
    ensures within { IfOk result (λ r. IfSome least (λ k. k < length all.now) → IfSome r (λ k. k < length all.now)) }
{
    let listed = listed_in(alloc, object)?;
    let with_slots = with_classes(least, all, object, &listed);
    Ok(with_globals(with_slots, all, object, &listed))
}

/// The least name that an object's slots or cells name and that the object has no entry of.
pub(crate) fn least_unlisted(
    alloc: Global,
    all: &[Vec<u8>],
    objects: &[Object],
) -> Result<Option<u32>, AllocError>
    requires { All (λ o. Known (map bytes_of all.now) (object_view o)) objects.now }
    ensures least { IfOk result (IsLeast (misses_any (map bytes_of all.now) (map object_view objects.now))) }
    ensures within { IfOk result (λ r. IfSome r (λ k. k < length all.now)) }
{
    let mut least = None;
    for object in objects {
        least = with_object(alloc, least, all, object)?;
    }
    Ok(least)
}

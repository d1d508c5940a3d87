//! What the slots of classes name (C++14 10.3).

ghost use Rattle.std.specs.Prelude.{◌≡◌, ◌<◌, MatchOption, None, Some, IfOk, length, map};
ghost use Rattle.cpp_types.specs.Class.{Class, function_of};
ghost use Rattle.cpp_types.specs.Typ.{signature_of};
ghost use Rattle.cpp_types.specs.Equal.{signature_eq};
ghost use Rattle.cpp_tree.specs.Units.{slot_of, unit_of, program_of};
ghost use Rattle.tx_safety.specs.Answers.{checked_in};
ghost use Rattle.src_bind.specs.Numbers.{rows};
ghost use Rattle.src_link.specs.Slots.{slot_function as function_in_slot, is_that as is_that_function, symbol_among as symbol_in_list, first_symbol as symbol_in_units, slot_symbol as symbol_in_slot, name_of, safe_row as row_of_safe, safe_rows as rows_of_safe, AreChoices};

use cpp_tree::{Program, SlotRec, TFunc, UnitTree};
use cpp_types::copyability::is_name;
use cpp_types::{FnTy, FuncRec, equal_lists, equal_types};
use src_bind::Choices;
use std::alloc::{AllocError, Global};
use tx_safety::SafeProgram;

// The function in a slot, as its class has it.
fn slot_function<'a>(program: &'a Program, slot: &SlotRec) -> Option<&'a FuncRec>
    ensures { MatchOption result (function_in_slot (program_of program.now) (slot_of slot.now) ≡ None) (λ f. function_in_slot (program_of program.now) (slot_of slot.now) ≡ Some (function_of f.now)) }
{
    match program.classes.get(slot.class as usize) {
        Some(class) => class.functions.get(slot.func as usize),
        None => None,
    }
}

// Whether two types of functions are one.
#[tactic(auto, using(cpp_types::proofs::Views::signature_view))]
fn equal_functions(a: &FnTy, b: &FnTy) -> bool
    ensures { result ≡ signature_eq (signature_of a.now) (signature_of b.now) }
{
    a.safe == b.safe && equal_types(&a.ret, &b.ret) && equal_lists(&a.params, &b.params)
}

// Whether a function of a unit is that function of a class.
fn is_that(func: &TFunc, class: u32, record: &FuncRec) -> bool
    ensures { result ≡ is_that_function class (function_of record.now) func.now.class (function_of func.now.rec) }
{
    match func.class {
        Some(other) => {
            other == class
                && is_name(&func.rec.name, &record.name)
                && func.rec.is_const == record.is_const
                && equal_functions(&func.rec.ty, &record.ty)
        }
        None => false,
    }
}

// The symbol of a function of a class, as a unit has it.
fn symbol_among<'a>(unit: &'a UnitTree, class: u32, record: &FuncRec) -> Option<&'a [u8]>
    ensures { MatchOption result (symbol_in_list class (function_of record.now) (unit_of unit.now).funcs ≡ None) (λ s. symbol_in_list class (function_of record.now) (unit_of unit.now).funcs ≡ Some s.now) }
{
    for func in &unit.funcs {
        if is_that(func, class, record) {
            return Some(&func.symbol);
        }
    }
    None
}

// The symbol of a function of a class, as the first unit has it that refers to it.
fn first_symbol<'a>(program: &'a Program, class: u32, record: &FuncRec) -> Option<&'a [u8]>
    ensures { MatchOption result (symbol_in_units class (function_of record.now) (program_of program.now).units ≡ None) (λ s. symbol_in_units class (function_of record.now) (program_of program.now).units ≡ Some s.now) }
{
    for unit in &program.units {
        if let Some(symbol) = symbol_among(unit, class, record) {
            return Some(symbol);
        }
    }
    None
}

// The symbol of the function in a slot; `None` where it is pure, and where no unit refers to it.
fn slot_symbol<'a>(program: &'a Program, slot: &SlotRec) -> Option<&'a [u8]>
    ensures { MatchOption result (symbol_in_slot (program_of program.now) (slot_of slot.now) ≡ None) (λ s. symbol_in_slot (program_of program.now) (slot_of slot.now) ≡ Some s.now) }
{
    match slot_function(program, slot) {
        Some(record) => {
            if record.pure_virtual {
                None
            } else {
                first_symbol(program, slot.class, record)
            }
        }
        None => None,
    }
}

// A copy of that symbol.
fn slot_name(
    alloc: Global,
    program: &Program,
    slot: &SlotRec,
) -> Result<Option<Vec<u8>>, AllocError>
    ensures { IfOk result (λ name. name_of name ≡ symbol_in_slot (program_of program.now) (slot_of slot.now)) }
{
    match slot_symbol(program, slot) {
        Some(text) => Ok(Some(Vec::from_slice(alloc, text)?)),
        None => Ok(None),
    }
}

// The symbols that the slots of a class name.
fn slot_row(
    alloc: Global,
    program: &Program,
    slots: &[SlotRec],
) -> Result<Vec<Option<Vec<u8>>>, AllocError>
    ensures { IfOk result (λ v. map name_of v.items ≡ map (symbol_in_slot (program_of program.now)) (map slot_of slots.now)) }
{
    let mut row = Vec::new(alloc);
    for slot in slots {
        row.push(slot_name(alloc, program, slot)?)?;
    }
    Ok(row)
}

// The symbols that the slots of each class name.
fn slot_table(alloc: Global, program: &Program) -> Result<Vec<Vec<Option<Vec<u8>>>>, AllocError>
    ensures { IfOk result (λ v. map (map name_of) (rows v.items) ≡ map (map (symbol_in_slot (program_of program.now))) (program_of program.now).slots) }
{
    let mut table = Vec::new(alloc);
    for slots in &program.slots {
        table.push(slot_row(alloc, program, slots)?)?;
    }
    Ok(table)
}

// A place as a number of 32 bits. More count as want of memory.
fn numbered(place: usize) -> Result<u32, AllocError>
    ensures { IfOk result (λ n. n ≡ place) }
{
    match u32::try_from(place) {
        Ok(number) => Ok(number),
        Err(_) => Err(AllocError),
    }
}

// Which functions of a unit are safe.
fn safe_row(
    alloc: Global,
    safe: &SafeProgram,
    unit: u32,
    tree: &UnitTree,
) -> Result<Vec<bool>, AllocError>
    requires { unit < length (checked_in safe.now).units.items }
    ensures { IfOk result (λ v. v.items ≡ row_of_safe (program_of (checked_in safe.now)) unit 0 (unit_of tree.now).funcs) }
{
    let mut row = Vec::new(alloc);
    for (i, _func) in tree.funcs.iter().enumerate() {
        row.push(safe.is_safe(unit, numbered(i)?))?;
    }
    Ok(row)
}

// Of each unit, which of its functions are safe.
fn safe_rows(
    alloc: Global,
    safe: &SafeProgram,
    units: &[UnitTree],
) -> Result<Vec<Vec<bool>>, AllocError>
    requires { length units.now ≡ length (checked_in safe.now).units.items }
    ensures { IfOk result (λ v. rows v.items ≡ rows_of_safe (program_of (checked_in safe.now)) 0 (map unit_of units.now)) }
{
    let mut all = Vec::new(alloc);
    for (i, tree) in units.iter().enumerate() {
        all.push(safe_row(alloc, safe, numbered(i)?, tree)?)?;
    }
    Ok(all)
}

/// What a checked program is linked by: the functions that are safe have safe bodies, slots name the final overriders, and
/// thread 0 starts in `main`.
pub fn choices(alloc: Global, safe: &SafeProgram) -> Result<Choices, AllocError>
    ensures { IfOk result (AreChoices (program_of (checked_in safe.now))) }
{
    let program = safe.program();
    let units = program.units.as_slice();
    let safe_bodies = safe_rows(alloc, safe, units)?;
    let symbols = slot_table(alloc, program)?;
    let main = Vec::from_slice(alloc, b"main()")?;
    Ok(Choices {
        safe: safe_bodies,
        symbols,
        main,
    })
}

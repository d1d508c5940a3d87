//! The numbers of functions and classes.

ghost use Rattle.std.specs.Prelude.{◌≡◌, ℕ, false, [], map, IfOk};
ghost use Rattle.cpp_tree.specs.cpp_types.Class.{Class, classes_of};
ghost use Rattle.cpp_tree.specs.Units.{unit_of, program_of};
ghost use Rattle.src_mean.specs.Links.{number_in as number_of_def, number_of_symbol as number_by_symbol};
ghost use Rattle.src_bind.specs.Defs.{defs_of, named};
ghost use Rattle.src_bind.specs.Numbers.{func_numbers as numbers_of_funcs, unit_numbers as numbers_of_units, class_numbers as numbers_of_classes, slot_numbers as numbers_of_slots, rows};

use crate::defs::{Found, number_in};
use crate::lists::{is_internal, numbered};
use cpp_tree::below::ClassRec;
use cpp_tree::{Program, UnitTree};
use std::alloc::{AllocError, Global};

// The numbers of a unit's functions.
fn func_numbers(
    alloc: Global,
    unit: u32,
    tree: &UnitTree,
    kept: &[Found<'_>],
) -> Result<Vec<u32>, AllocError>
    ensures { IfOk result (λ v. v.items ≡ numbers_of_funcs (defs_of kept.now) unit 0 (unit_of tree.now).funcs) }
{
    let mut numbers = Vec::new(alloc);
    for (i, func) in tree.funcs.iter().enumerate() {
        let def = Found {
            unit,
            place: numbered(i)?,
            symbol: &func.symbol,
            internal: is_internal(func.linkage),
        };
        numbers.push(numbered(number_in(&def, kept))?)?;
    }
    Ok(numbers)
}

/// The numbers of each unit's functions.
pub fn unit_numbers(
    alloc: Global,
    program: &Program,
    kept: &[Found<'_>],
) -> Result<Vec<Vec<u32>>, AllocError>
    ensures { IfOk result (λ v. rows v.items ≡ numbers_of_units (defs_of kept.now) 0 (program_of program.now).units) }
{
    let mut all = Vec::new(alloc);
    for (i, tree) in program.units.iter().enumerate() {
        all.push(func_numbers(alloc, numbered(i)?, tree, kept)?)?;
    }
    Ok(all)
}

/// The number of the definition with this symbol that other units see; as many as there are where there is none.
pub fn number_named(symbol: &[u8], kept: &[Found<'_>]) -> Result<u32, AllocError>
    ensures { IfOk result (λ n. n ≡ number_of_def (named symbol.now) (defs_of kept.now)) }
{
    let def = Found {
        unit: 0,
        place: 0,
        symbol,
        internal: false,
    };
    numbered(number_in(&def, kept))
}

/// The numbers of the classes.
pub fn class_numbers(
    alloc: Global,
    classes: &[ClassRec],
    kept: &[Found<'_>],
) -> Result<Vec<u32>, AllocError>
    ensures { IfOk result (λ v. v.items ≡ numbers_of_classes (defs_of kept.now) (classes_of classes.now)) }
{
    let mut numbers = Vec::new(alloc);
    for class in classes {
        numbers.push(number_named(&class.name, kept)?)?;
    }
    Ok(numbers)
}

// The number of the function that a slot names.
fn slot_number(symbol: &Option<Vec<u8>>, kept: &[Found<'_>]) -> Result<Option<u32>, AllocError>
    ensures { IfOk result (λ o. o ≡ numbers_of_slots (defs_of kept.now) symbol.now) }
{
    let Some(name) = symbol else {
        return Ok(None);
    };
    let number = number_named(name, kept)?;
    if (number as usize) < kept.len() {
        Ok(Some(number))
    } else {
        Ok(None)
    }
}

// The numbers of the functions that the slots of a class name.
fn slot_row(
    alloc: Global,
    symbols: &[Option<Vec<u8>>],
    kept: &[Found<'_>],
) -> Result<Vec<Option<u32>>, AllocError>
    ensures { IfOk result (λ v. v.items ≡ map (numbers_of_slots (defs_of kept.now)) symbols.now) }
{
    let mut row = Vec::new(alloc);
    for symbol in symbols {
        row.push(slot_number(symbol, kept)?)?;
    }
    Ok(row)
}

/// The numbers of the functions that the slots of each class name.
pub fn slot_table(
    alloc: Global,
    symbols: &[Vec<Option<Vec<u8>>>],
    kept: &[Found<'_>],
) -> Result<Vec<Vec<Option<u32>>>, AllocError>
    ensures { IfOk result (λ v. rows v.items ≡ map (map (numbers_of_slots (defs_of kept.now))) (rows symbols.now)) }
{
    let mut table = Vec::new(alloc);
    for row in symbols {
        table.push(slot_row(alloc, row, kept)?)?;
    }
    Ok(table)
}

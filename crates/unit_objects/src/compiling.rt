//! The object of a unit, and those of all units.

ghost use Rattle.std.specs.Prelude.{◌≡◌, ◌<◌, length, map, IfOk, Some, slice_get, string_bytes};
ghost use Rattle.std.specs.List.{All};
ghost use Rattle.cpp_tree.specs.Units.{Unit, program_of};
ghost use Rattle.tx_code.specs.Objects.{object_view};
ghost use Rattle.tx_code.specs.WellFormed.{IsObject};
ghost use Rattle.tx_safety.specs.Answers.{checked_in};
ghost use Rattle.unit_objects.specs.Units.{safe_first, IsUnitObject, AreUnitObjects};

use clone_gen::generate;
use std::alloc::{AllocError, Global};
use tx_code::Object;
use tx_safety::SafeProgram;

// Where the lines of a text begin.
fn line_starts(alloc: Global, text: &[u8]) -> Result<Vec<u32>, AllocError> {
    let mut starts = Vec::new(alloc);
    starts.push(0)?;
    for (index, byte) in text.iter().enumerate() {
        if *byte == b'\n' {
            match u32::try_from(index) {
                Ok(index) => starts.push(index.saturating_add(1))?,
                // No source is that long.
                Err(_) => return Err(AllocError),
            }
        }
    }
    Ok(starts)
}

// Which functions of a unit are safe.
fn safe_functions(alloc: Global, safe: &SafeProgram, unit: u32) -> Result<Vec<bool>, AllocError>
    requires { unit < length (checked_in safe.now).units.items }
    ensures { IfOk result (λ marks. (u : Unit) → slice_get (program_of (checked_in safe.now)).units unit ≡ Some u → marks.items ≡ safe_first (program_of (checked_in safe.now)) unit (length u.funcs)) }
{
    let mut marks = Vec::new(alloc);
    let Some(tree) = safe.program().units.get(unit as usize) else {
        return Err(AllocError);
    };
    for index in 0..tree.funcs.len() {
        match u32::try_from(index) {
            Ok(func) => marks.push(safe.is_safe(unit, func))?,
            // No unit has so many.
            Err(_) => return Err(AllocError),
        }
    }
    Ok(marks)
}

/// The object of a unit of a safe program, from a source of this name and text.
pub fn unit_object(
    alloc: Global,
    safe: &SafeProgram,
    unit: u32,
    name: &[u8],
    text: &[u8],
) -> Result<Object, AllocError>
    requires { unit < length (checked_in safe.now).units.items }
    ensures object { IfOk result (λ o. IsObject (object_view o)) }
    ensures unit { IfOk result (λ o. IsUnitObject (program_of (checked_in safe.now)) name.now unit (object_view o)) }
{
    let marks = safe_functions(alloc, safe, unit)?;
    let starts = line_starts(alloc, text)?;
    generate(
        alloc,
        safe.program(),
        unit,
        marks.as_slice(),
        name,
        starts.as_slice(),
    )
}

// The object of a unit, if the program has the unit.
fn object_at(
    alloc: Global,
    safe: &SafeProgram,
    index: usize,
    name: &[u8],
    text: &[u8],
) -> Result<Object, AllocError>
    ensures object { IfOk result (λ o. IsObject (object_view o)) }
    ensures unit { IfOk result (λ o. IsUnitObject (program_of (checked_in safe.now)) name.now index (object_view o)) }
{
    let Ok(unit) = u32::try_from(index) else {
        return Err(AllocError);
    };
    if index >= safe.program().units.len() {
        return Err(AllocError);
    }
    unit_object(alloc, safe, unit, name, text)
}

/// The objects of the units of a safe program, one for each in their order, from sources of these names and texts. Another
/// count of texts than of units counts as want of memory; callers have as many.
pub fn unit_objects(
    alloc: Global,
    safe: &SafeProgram,
    names: &[String],
    texts: &[Vec<u8>],
) -> Result<Vec<Object>, AllocError>
    ensures objects { IfOk result (λ objects. All (λ o. IsObject (object_view o)) objects.items) }
    ensures units { IfOk result (λ objects. AreUnitObjects (program_of (checked_in safe.now)) (map string_bytes names.now) (map object_view objects.items)) }
{
    if texts.len() != safe.program().units.len() {
        return Err(AllocError);
    }
    let mut objects = Vec::new(alloc);
    'texts: for (index, text) in texts.iter().enumerate() {
        // Each text has its name.
        let Some(name) = names.get(index) else {
            return Err(AllocError);
        };
        objects.push(object_at(alloc, safe, index, name.as_bytes(), text.as_slice())?)?;
    }
    Ok(objects)
}

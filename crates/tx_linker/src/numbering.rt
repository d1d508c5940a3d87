//! What the names of the objects stand for.
ghost use Rattle.std.specs.Prelude.{◌≡◌, ◌<◌, ◌≤◌, ◌^◌, true, map, length, IfOk};
ghost use Rattle.tx_code.specs.Objects.{bytes_of};
ghost use Rattle.tx_code.specs.WellFormed.{ascends, bytes_lt};
ghost use Rattle.tx_code.specs.Linked.{class_number, end_of, func_number, global_defs, global_number, type_number};
ghost use Rattle.link_parts.specs.Told.{TellNames, TellsEach};
ghost use Rattle.tx_linker.specs.Kept.{AreKept, objects_of};
ghost use Rattle.tx_events.specs.declared.TheConstants.{GLOBALS_LIMIT};

use crate::kept::Kept;
use link_parts::types::type_numbers;
use link_tables::kept::{numbered_classes, numbered_funcs, placed_globals};
use link_tables::places::numbers;
use link_tables::renamed::Numbers;
use std::alloc::{AllocError, Global};

fn func_numbers(alloc: Global, kept: &Kept<'_>) -> Result<Vec<Option<u32>>, AllocError>
    requires { AreKept kept.now }
    ensures { IfOk result (λ v. TellsEach (objects_of kept.now) (func_number (objects_of kept.now)) v.items) }
{
    let defs = numbered_funcs(alloc, &kept.funcs)?;
    numbers(alloc, kept.names.len(), &kept.ranks, &defs)
}

fn class_numbers(alloc: Global, kept: &Kept<'_>) -> Result<Vec<Option<u32>>, AllocError>
    requires { AreKept kept.now }
    ensures { IfOk result (λ v. TellsEach (objects_of kept.now) (λ at. class_number (objects_of kept.now)) v.items) }
{
    let defs = numbered_classes(alloc, &kept.classes)?;
    numbers(alloc, kept.names.len(), &kept.ranks, &defs)
}

fn global_offsets(alloc: Global, kept: &Kept<'_>) -> Result<Vec<Option<u32>>, AllocError>
    requires kept { AreKept kept.now }
    requires size { end_of 0 (global_defs 0 (objects_of kept.now)) ≤ GLOBALS_LIMIT }
    ensures { IfOk result (λ v. TellsEach (objects_of kept.now) (global_number (objects_of kept.now)) v.items) }
{
    let defs = placed_globals(alloc, &kept.globals)?;
    numbers(alloc, kept.names.len(), &kept.ranks, &defs)
}

fn numbers_of_types(
    alloc: Global,
    kept: &Kept<'_>,
    types: &[Vec<u8>],
) -> Result<Vec<Option<u32>>, AllocError>
    requires kept { AreKept kept.now }
    requires ascend { ascends bytes_lt (map bytes_of types.now) ≡ true }
    requires few { length types.now < 2 ^ 32 }
    ensures { IfOk result (λ v. TellsEach (objects_of kept.now) (λ at. type_number (map bytes_of types.now)) v.items) }
{
    type_numbers(alloc, types, &kept.homes)
}

/// What the name at each place stands for in an image with these types.
pub(crate) fn numbers_of(
    alloc: Global,
    kept: &Kept<'_>,
    types: &[Vec<u8>],
) -> Result<Numbers, AllocError>
    requires kept { AreKept kept.now }
    requires size { end_of 0 (global_defs 0 (objects_of kept.now)) ≤ GLOBALS_LIMIT }
    requires ascend { ascends bytes_lt (map bytes_of types.now) ≡ true }
    requires few { length types.now < 2 ^ 32 }
    ensures { IfOk result (TellNames (objects_of kept.now) (map bytes_of types.now)) }
{
    let globals = global_offsets(alloc, kept)?;
    let funcs = func_numbers(alloc, kept)?;
    let classes = class_numbers(alloc, kept)?;
    let types = numbers_of_types(alloc, kept, types)?;
    Ok(Numbers {
        globals,
        funcs,
        classes,
        types,
    })
}

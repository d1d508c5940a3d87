//! Where globals lie.

ghost use Rattle.std.specs.Prelude.{◌≡◌, ◌≤◌, ℕ, map, IfOk, MatchOption, None, Some, slice_get};
ghost use Rattle.cpp_tree.specs.cpp_types.Class.{InOrder, classes_of};
ghost use Rattle.cpp_tree.specs.Units.{global_of, unit_of, program_of};
ghost use Rattle.src_mean.specs.Links.{Def, global_at as global_found, global_size, global_offsets, globals_end};
ghost use Rattle.src_bind.specs.Defs.{def_of, defs_of};
ghost use Rattle.src_bind.specs.Numbers.{rows};
ghost use Rattle.src_bind.specs.Globals.{HasSize, HaveSizes, global_addresses as addresses_of_globals, unit_addresses as addresses_of_units, address_in};
ghost use Rattle.cpp_tree.specs.tx_events.declared.TheConstants.{GLOBALS_LIMIT};

use crate::defs::{Found, number_in};
use crate::lists::{is_internal, numbered};
use cpp_tree::below::{GLOBALS_START, size_align};
use cpp_tree::{Program, TGlobal, UnitTree};
use std::alloc::{AllocError, Global};

// The global with these indexes.
fn global_at(program: &Program, unit: u32, place: u32) -> Option<&TGlobal>
    ensures { MatchOption result (global_found (program_of program.now) unit place ≡ None) (λ g. global_found (program_of program.now) unit place ≡ Some (global_of g.now)) }
{
    match program.units.get(unit as usize) {
        Some(tree) => tree.globals.get(place as usize),
        None => None,
    }
}

// The size of a global; 0 where there is none.
fn size_at(program: &Program, def: &Found<'_>) -> u32
    requires in_order { InOrder (classes_of program.now.classes.items) }
    requires sized { HasSize (program_of program.now) (def_of def.now) }
    ensures { result ≡ global_size (program_of program.now) (def_of def.now) }
{
    let Some(global) = global_at(program, def.unit, def.place) else {
        return 0;
    };
    let Ok(found) = size_align(&global.ty, &program.classes) else {
        unreachable!()
    };
    found.size
}

/// The offsets of the globals: each lies at the next multiple of 8.
pub fn offsets(alloc: Global, program: &Program, kept: &[Found<'_>]) -> Result<Vec<u32>, AllocError>
    requires in_order { InOrder (classes_of program.now.classes.items) }
    requires sized { HaveSizes (program_of program.now) (defs_of kept.now) }
    requires total { globals_end 0 (map (global_size (program_of program.now)) (defs_of kept.now)) ≤ GLOBALS_LIMIT }
    ensures { IfOk result (λ v. v.items ≡ global_offsets 0 (map (global_size (program_of program.now)) (defs_of kept.now))) }
{
    let mut offsets = Vec::new(alloc);
    let mut end = 0;
    for def in kept {
        let start = (end + 7) / 8 * 8;
        offsets.push(start)?;
        end = start + size_at(program, def);
    }
    Ok(offsets)
}

// The addresses of a unit's globals.
fn global_addresses(
    alloc: Global,
    unit: u32,
    tree: &UnitTree,
    kept: &[Found<'_>],
    offsets: &[u32],
) -> Result<Vec<u64>, AllocError>
    ensures { IfOk result (λ v. v.items ≡ addresses_of_globals (defs_of kept.now) offsets.now unit 0 (unit_of tree.now).globals) }
{
    let mut addresses = Vec::new(alloc);
    for (i, global) in tree.globals.iter().enumerate() {
        let def = Found {
            unit,
            place: numbered(i)?,
            symbol: &global.symbol,
            internal: is_internal(global.linkage),
        };
        addresses.push(address_at(offsets, number_in(&def, kept)))?;
    }
    Ok(addresses)
}

// The address of the global that lies at this offset of a list.
fn address_at(offsets: &[u32], number: usize) -> u64
    ensures { result ≡ address_in offsets.now number }
{
    match offsets.get(number) {
        Some(offset) => GLOBALS_START + *offset as u64,
        None => GLOBALS_START,
    }
}

/// The addresses of each unit's globals.
pub fn unit_addresses(
    alloc: Global,
    program: &Program,
    kept: &[Found<'_>],
    offsets: &[u32],
) -> Result<Vec<Vec<u64>>, AllocError>
    ensures { IfOk result (λ v. rows v.items ≡ addresses_of_units (defs_of kept.now) offsets.now 0 (program_of program.now).units) }
{
    let mut all = Vec::new(alloc);
    for (i, tree) in program.units.iter().enumerate() {
        all.push(global_addresses(alloc, numbered(i)?, tree, kept, offsets)?)?;
    }
    Ok(all)
}

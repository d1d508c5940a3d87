//! The first fault of objects.
ghost use Rattle.std.specs.Prelude.{◌≡◌, ◌<◌, ◌≤◌, map, length, slice_index_or, [], IfOk, MatchResult};
ghost use Rattle.std.specs.List.{All, flat_map};
ghost use Rattle.tx_code.specs.Objects.{bytes_of, object_view};
ghost use Rattle.tx_code.specs.WellFormed.{IsObject};
ghost use Rattle.link_faults.specs.Answers.{Links, Faulty, NoneOf, AreSymbolsWell, IsTwiceFault, IsDifferentFault, IsUndefinedFault, IsUnsafeFault};
ghost use Rattle.link_faults.specs.Faults.{is_twice, is_different, is_undefined, is_unsafe};
ghost use Rattle.link_faults.specs.Ranks.{names_of};
ghost use Rattle.link_faults.specs.Told.{AreTables, objects_of, names_in};

use crate::fault::LinkFault;
use crate::missing::{is_main_defined, least_undefined, least_wanted};
use crate::size::globals_size;
use crate::tables::{Tables, tables_of};
use crate::twice::{least_different, least_twice};
use std::alloc::{AllocError, Global};
use tx_code::Object;
use tx_events::GLOBALS_LIMIT;

fn name_at(alloc: Global, names: &[Vec<u8>], rank: u32) -> Result<Vec<u8>, AllocError>
    requires { rank < length names.now }
    ensures { IfOk result (λ v. v.items ≡ slice_index_or (map bytes_of names.now) rank []) }
{
    Vec::from_slice(alloc, names[rank as usize].as_slice())
}

fn check_twice(alloc: Global, tables: &Tables<'_>) -> Result<(), LinkFault>
    requires { AreTables tables.now }
    ensures { MatchResult result (λ _. NoneOf (is_twice (objects_of tables.now))) (IsTwiceFault (objects_of tables.now)) }
{
    match least_twice(alloc, tables)? {
        None => Ok(()),
        Some(rank) => {
            let symbol = name_at(alloc, &tables.names, rank)?;
            Err(LinkFault::Twice { symbol })
        }
    }
}

fn check_different(alloc: Global, tables: &Tables<'_>) -> Result<(), LinkFault>
    requires { AreTables tables.now }
    ensures { MatchResult result (λ _. NoneOf (is_different (objects_of tables.now))) (IsDifferentFault (objects_of tables.now)) }
{
    match least_different(alloc, tables)? {
        None => Ok(()),
        Some(rank) => {
            let symbol = name_at(alloc, &tables.names, rank)?;
            Err(LinkFault::OdrDiffers { symbol })
        }
    }
}

fn check_undefined(alloc: Global, tables: &Tables<'_>) -> Result<(), LinkFault>
    requires { AreTables tables.now }
    ensures { MatchResult result (λ _. NoneOf (is_undefined (objects_of tables.now))) (IsUndefinedFault (objects_of tables.now)) }
{
    match least_undefined(alloc, tables)? {
        None => Ok(()),
        Some(rank) => {
            let symbol = name_at(alloc, &tables.names, rank)?;
            Err(LinkFault::Undefined { symbol })
        }
    }
}

fn check_safe(alloc: Global, tables: &Tables<'_>) -> Result<(), LinkFault>
    requires { AreTables tables.now }
    ensures { MatchResult result (λ _. NoneOf (is_unsafe (objects_of tables.now))) (IsUnsafeFault (objects_of tables.now)) }
{
    match least_wanted(alloc, tables)? {
        None => Ok(()),
        Some(rank) => {
            let symbol = name_at(alloc, &tables.names, rank)?;
            Err(LinkFault::UnsafeSymbol { symbol })
        }
    }
}

fn check_symbols(alloc: Global, tables: &Tables<'_>) -> Result<(), LinkFault>
    requires { AreTables tables.now }
    ensures { MatchResult result (λ _. AreSymbolsWell (objects_of tables.now)) (Faulty (objects_of tables.now)) }
{
    check_twice(alloc, tables)?;
    check_different(alloc, tables)?;
    check_undefined(alloc, tables)?;
    check_safe(alloc, tables)?;
    if !is_main_defined(tables) {
        return Err(LinkFault::NoMain);
    }
    Ok(())
}

fn check_tables(alloc: Global, objects: &[Object]) -> Result<(), LinkFault>
    requires objects { All (λ o. IsObject (object_view o)) objects.now }
    requires names { length (flat_map names_of (map object_view objects.now)) < 4294967295 }
    ensures { MatchResult result (λ _. AreSymbolsWell (map object_view objects.now)) (Faulty (map object_view objects.now)) }
{
    let tables = tables_of(alloc, objects)?;
    check_symbols(alloc, &tables)
}

/// Whether the objects can be linked, and if not, their first fault, with its least symbol by bytes. Want of memory is
/// `Memory`.
pub fn check_objects(alloc: Global, objects: &[Object]) -> Result<(), LinkFault>
    requires objects { All (λ o. IsObject (object_view o)) objects.now }
    requires names { length (flat_map names_of (map object_view objects.now)) < 4294967295 }
    ensures { MatchResult result (λ _. Links (map object_view objects.now)) (Faulty (map object_view objects.now)) }
{
    check_tables(alloc, objects)?;
    let size = globals_size(objects);
    if size > u64::from(GLOBALS_LIMIT) {
        return Err(LinkFault::Globals { size });
    }
    Ok(())
}

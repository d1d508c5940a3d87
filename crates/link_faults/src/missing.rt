//! Symbols that are not defined, and functions that are not safe.
ghost use Rattle.std.specs.Prelude.{◌≡◌, ◌<◌, length, IfOk, IfSome};
ghost use Rattle.std.specs.List.{All, list_any};
ghost use Rattle.link_faults.specs.Faults.{is_undefined, is_unsafe, has_main};
ghost use Rattle.link_faults.specs.Disputes.{IsLeast};
ghost use Rattle.link_faults.specs.Kept.{misses, wants_safe};
ghost use Rattle.link_faults.specs.Told.{AreTables, objects_of, names_in};
ghost use Rattle.link_faults.specs.Tests.{IsFirst};

use crate::definitions::{kept_definitions, least_missing, least_unsafe};
use crate::disputes::lesser;
use crate::entries::RankedEntry;
use crate::tables::Tables;
use crate::unlisted::least_unlisted;
use std::alloc::{AllocError, Global};

/// The least symbol of functions or globals that is not defined.
fn least_not_defined(
    alloc: Global,
    names: &[Vec<u8>],
    entries: &[RankedEntry],
) -> Result<Option<u32>, AllocError>
    requires { All (λ e. e.symbol < length names.now) entries.now }
    ensures least { IfOk result (IsLeast (misses entries.now)) }
    ensures within { IfOk result (λ r. IfSome r (λ k. k < length names.now)) }
{
    let kept = kept_definitions(alloc, entries, names.len())?;
    Ok(least_missing(entries, &kept))
}

/// The least symbol that is not defined.
pub(crate) fn least_undefined(alloc: Global, tables: &Tables<'_>) -> Result<Option<u32>, AllocError>
    requires { AreTables tables.now }
    ensures { IfOk result (IsFirst (is_undefined (objects_of tables.now)) (names_in tables.now)) }
{
    let funcs = least_not_defined(alloc, &tables.names, &tables.funcs)?;
    let globals = least_not_defined(alloc, &tables.names, &tables.globals)?;
    let unlisted = least_unlisted(alloc, &tables.names, tables.objects)?;
    let entries = lesser(funcs, globals);
    Ok(lesser(entries, unlisted))
}

/// The least function that is wanted safe and is not.
fn least_not_safe(
    alloc: Global,
    names: &[Vec<u8>],
    entries: &[RankedEntry],
) -> Result<Option<u32>, AllocError>
    requires { All (λ e. e.symbol < length names.now) entries.now }
    ensures least { IfOk result (IsLeast (wants_safe entries.now)) }
    ensures within { IfOk result (λ r. IfSome r (λ k. k < length names.now)) }
{
    let kept = kept_definitions(alloc, entries, names.len())?;
    Ok(least_unsafe(entries, &kept))
}

/// The least function that an object wants safe and that has no safe body.
pub(crate) fn least_wanted(alloc: Global, tables: &Tables<'_>) -> Result<Option<u32>, AllocError>
    requires { AreTables tables.now }
    ensures { IfOk result (IsFirst (is_unsafe (objects_of tables.now)) (names_in tables.now)) }
{
    let least = least_not_safe(alloc, &tables.names, &tables.funcs)?;
    Ok(least)
}

fn any_main(entries: &[RankedEntry]) -> bool
    ensures { result ≡ list_any (λ e. e.main) entries.now }
{
    entries.iter().any(|entry| entry.main)
}

/// Whether an object defines an external `int main()`.
pub(crate) fn is_main_defined(tables: &Tables<'_>) -> bool
    requires { AreTables tables.now }
    ensures { result ≡ has_main (objects_of tables.now) }
{
    any_main(&tables.funcs)
}

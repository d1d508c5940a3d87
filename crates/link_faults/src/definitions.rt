//! Which definition of a symbol is kept.
ghost use Rattle.std.specs.Prelude.{◌≡◌, ◌<◌, ℕ, Bool, List, Some, map, filter, length, slice_get, IfOk, IfSome};
ghost use Rattle.std.specs.List.{All, list_any};
ghost use Rattle.std.specs.Option.{option_map};
ghost use Rattle.link_faults.specs.declared.entries.RankedEntry.{RankedEntry};
ghost use Rattle.link_faults.specs.Faults.{first_of};
ghost use Rattle.link_faults.specs.Claims.{is_definition};
ghost use Rattle.link_faults.specs.Disputes.{IsLeast};
ghost use Rattle.link_faults.specs.Kept.{kept, ArePlaces, defines_rank, is_missing_rank, is_kept_safe, is_unsafe_rank, misses, wants_safe};

use crate::disputes::{Claim, first_claim, first_claims, with_name};
use crate::entries::RankedEntry;
use std::alloc::{AllocError, Global};

/// The definitions that others see, each with whether it has a safe body.
fn definitions(alloc: Global, entries: &[RankedEntry]) -> Result<Vec<Claim>, AllocError>
    ensures { IfOk result (λ v. v.items ≡ map kept (filter is_definition entries.now)) }
{
    entries
        .iter()
        .filter(|entry| entry.defined && entry.linkage != 1)
        .map(|entry| Claim {
            symbol: entry.symbol,
            alone: entry.safe,
            says: 0,
        })
        .collect(alloc)
}

/// Of each symbol the definition that is kept: the first one that others see.
pub(crate) fn kept_definitions(
    alloc: Global,
    entries: &[RankedEntry],
    symbols: usize,
) -> Result<Vec<Option<Claim>>, AllocError>
    requires { All (λ e. e.symbol < symbols) entries.now }
    ensures places { IfOk result (λ v. ArePlaces entries.now v.items) }
    ensures length { IfOk result (λ v. length v.items ≡ symbols) }
{
    let claims = definitions(alloc, entries)?;
    let places = first_claims(alloc, &claims, symbols)?;
    Ok(places)
}

/// Whether an entry is undefined, and no other object has its definition.
fn is_missing(entry: RankedEntry, definition: Option<Claim>) -> bool
    ensures { (entries : List RankedEntry) → definition ≡ option_map kept (first_of (defines_rank entry.symbol) entries) → result ≡ is_missing_rank entries entry }
{
    if entry.defined {
        return false;
    }
    if entry.linkage == 1 {
        return true;
    }
    match definition {
        None => true,
        Some(_) => false,
    }
}

/// Whether an entry is wanted safe, and the definition that is kept is not.
fn is_unsafe(entry: RankedEntry, definition: Option<Claim>) -> bool
    ensures { (entries : List RankedEntry) → definition ≡ option_map kept (first_of (defines_rank entry.symbol) entries) → result ≡ is_unsafe_rank entries entry }
{
    entry.wanted_safe && !is_safe(entry, definition)
}

fn is_safe(entry: RankedEntry, definition: Option<Claim>) -> bool
    ensures { (entries : List RankedEntry) → definition ≡ option_map kept (first_of (defines_rank entry.symbol) entries) → result ≡ is_kept_safe entries entry }
{
    if entry.linkage == 1 {
        return entry.safe;
    }
    match definition {
        None => false,
        Some(definition) => definition.alone,
    }
}

/// The least symbol of an entry that is missing.
pub(crate) fn least_missing(entries: &[RankedEntry], kept: &[Option<Claim>]) -> Option<u32>
    requires places { ArePlaces entries.now kept.now }
    requires within { All (λ e. e.symbol < length kept.now) entries.now }
    ensures least { IsLeast (misses entries.now) result }
    ensures within { IfSome result (λ k. k < length kept.now) }
{
    let mut least = None;
    for entry in entries {
        let missing = is_missing(*entry, first_claim(kept, entry.symbol));
        least = with_name(least, entry.symbol, missing);
    }
    least
}

/// The least symbol of an entry that is wanted safe and is not.
pub(crate) fn least_unsafe(entries: &[RankedEntry], kept: &[Option<Claim>]) -> Option<u32>
    requires places { ArePlaces entries.now kept.now }
    requires within { All (λ e. e.symbol < length kept.now) entries.now }
    ensures least { IsLeast (wants_safe entries.now) result }
    ensures within { IfSome result (λ k. k < length kept.now) }
{
    let mut least = None;
    for entry in entries {
        let unsafe_here = is_unsafe(*entry, first_claim(kept, entry.symbol));
        least = with_name(least, entry.symbol, unsafe_here);
    }
    least
}

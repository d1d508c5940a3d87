//! What entries claim of symbols.
ghost use Rattle.std.specs.Prelude.{◌≡◌, ◌<◌, map, filter, IfOk, IfSome, length};
ghost use Rattle.std.specs.List.{All};
ghost use Rattle.link_faults.specs.Disputes.{IsLeast, is_disputed};
ghost use Rattle.link_faults.specs.Claims.{is_definition, definition, is_seen, said_type, is_inline, said_text};

use crate::disputes::{Claim, least_dispute};
use crate::entries::RankedEntry;
use std::alloc::{AllocError, Global};

/// That an object defines a symbol for others: an external definition stands alone.
pub(crate) fn definitions(alloc: Global, entries: &[RankedEntry]) -> Result<Vec<Claim>, AllocError>
    ensures { IfOk result (λ v. v.items ≡ map definition (filter is_definition entries.now)) }
{
    entries
        .iter()
        .filter(|entry| entry.defined && entry.linkage != 1)
        .map(|entry| Claim {
            symbol: entry.symbol,
            alone: entry.linkage == 0,
            says: 0,
        })
        .collect(alloc)
}

/// The types of symbols that others see.
pub(crate) fn types(alloc: Global, entries: &[RankedEntry]) -> Result<Vec<Claim>, AllocError>
    ensures { IfOk result (λ v. v.items ≡ map said_type (filter is_seen entries.now)) }
{
    entries
        .iter()
        .filter(|entry| entry.linkage != 1)
        .map(|entry| Claim {
            symbol: entry.symbol,
            alone: false,
            says: entry.ty,
        })
        .collect(alloc)
}

/// The texts of inline definitions.
pub(crate) fn texts(alloc: Global, entries: &[RankedEntry]) -> Result<Vec<Claim>, AllocError>
    ensures { IfOk result (λ v. v.items ≡ map said_text (filter is_inline entries.now)) }
{
    entries
        .iter()
        .filter(|entry| entry.defined && entry.linkage != 1 && entry.text.is_some())
        .map(|entry| Claim {
            symbol: entry.symbol,
            alone: false,
            says: entry.text.unwrap_or(0),
        })
        .collect(alloc)
}

/// The least symbol that two of the entries define, one of them alone.
pub(crate) fn least_clash(
    alloc: Global,
    entries: &[RankedEntry],
    symbols: usize,
) -> Result<Option<u32>, AllocError>
    requires { All (λ e. e.symbol < symbols) entries.now }
    ensures least { IfOk result (IsLeast (is_disputed (map definition (filter is_definition entries.now)))) }
    ensures within { IfOk result (λ o. IfSome o (λ k. k < symbols)) }
{
    let claims = definitions(alloc, entries)?;
    least_dispute(alloc, &claims, symbols)
}

/// The least symbol of which two of the entries have different types.
pub(crate) fn least_type_dispute(
    alloc: Global,
    entries: &[RankedEntry],
    symbols: usize,
) -> Result<Option<u32>, AllocError>
    requires { All (λ e. e.symbol < symbols) entries.now }
    ensures least { IfOk result (IsLeast (is_disputed (map said_type (filter is_seen entries.now)))) }
    ensures within { IfOk result (λ o. IfSome o (λ k. k < symbols)) }
{
    let claims = types(alloc, entries)?;
    least_dispute(alloc, &claims, symbols)
}

/// The least inline function of which two of the entries have different texts.
pub(crate) fn least_text_dispute(
    alloc: Global,
    entries: &[RankedEntry],
    symbols: usize,
) -> Result<Option<u32>, AllocError>
    requires { All (λ e. e.symbol < symbols) entries.now }
    ensures least { IfOk result (IsLeast (is_disputed (map said_text (filter is_inline entries.now)))) }
    ensures within { IfOk result (λ o. IfSome o (λ k. k < symbols)) }
{
    let claims = texts(alloc, entries)?;
    least_dispute(alloc, &claims, symbols)
}

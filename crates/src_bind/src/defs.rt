//! Definitions and their order.

ghost use Rattle.std.specs.Prelude.{◌≡◌, ◌≤◌, ◌++◌, ◌∷◌, [], length, if◌then◌else◌, reverse, IfOk, OnOk};
ghost use Rattle.std.specs.List.{list_any};
ghost use Rattle.src_mean.specs.Links.{name_lt, same_def, insert, sorted, kept_of, number_in};
ghost use Rattle.src_bind.specs.Defs.{def_of, defs_of, place_of};

use cpp_tree::below::is_name;
use std::alloc::{AllocError, Global};

/// A definition of a unit, by its place in the unit's list.
#[derive(Clone, Copy)]
pub struct Found<'a> {
    pub unit: u32,
    pub place: u32,
    pub symbol: &'a [u8],
    /// No other unit sees it.
    pub internal: bool,
}

// Whether one symbol stands before the other.
fn is_before(a: &[u8], b: &[u8]) -> bool
    ensures { result ≡ name_lt a.now b.now }
{
    for (i, x) in a.iter().enumerate() {
        let Some(y) = b.get(i) else {
            return false;
        };
        if *x != *y {
            return *x < *y;
        }
    }
    a.len() < b.len()
}

// Whether two definitions are of one thing: they have one symbol, and internal ones stand in one unit.
fn is_same(a: &Found<'_>, b: &Found<'_>) -> bool
    ensures { result ≡ same_def (def_of a.now) (def_of b.now) }
{
    if !is_name(a.symbol, b.symbol) {
        return false;
    }
    if a.internal || b.internal {
        a.unit == b.unit && (a.internal && b.internal)
    } else {
        true
    }
}

// How many definitions stand before a new one.
fn place_for(defs: &[Found<'_>], def: &Found<'_>) -> usize
    ensures place { result ≡ place_of (def_of def.now) (defs_of defs.now) }
    ensures within { result ≤ length defs.now }
{
    for (i, other) in defs.iter().enumerate() {
        if is_before(def.symbol, other.symbol) {
            return i;
        }
    }
    defs.len()
}

// Puts a definition in its place.
fn insert<'a>(defs: &mut Vec<Found<'a>>, def: Found<'a>) -> Result<(), AllocError>
    ensures { OnOk result (defs_of defs.new.items ≡ insert (def_of def.entry) (defs_of defs.old.items)) }
{
    let place = place_for(defs, &def);
    defs.insert(place, def)?;
    Ok(())
}

/// The definitions in the order of their symbols.
pub fn sorted<'a>(alloc: Global, defs: &[Found<'a>]) -> Result<Vec<Found<'a>>, AllocError>
    ensures { IfOk result (λ v. defs_of v.items ≡ sorted (defs_of defs.now)) }
{
    let mut out = Vec::new(alloc);
    let mut left = defs.len();
    while left > 0 {
        left -= 1;
        insert(&mut out, defs[left])?;
    }
    Ok(out)
}

// Whether one of the definitions is of the same thing.
fn has_same(defs: &[Found<'_>], def: &Found<'_>) -> bool
    ensures { result ≡ list_any (same_def (def_of def.now)) (defs_of defs.now) }
{
    for other in defs {
        if is_same(def, other) {
            return true;
        }
    }
    false
}

// Adds a definition where it is wanted.
pub(crate) fn add_if<'a>(
    defs: &mut Vec<Found<'a>>,
    wanted: bool,
    def: Found<'a>,
) -> Result<(), AllocError>
    ensures { OnOk result (defs_of defs.new.items ≡ (if wanted then defs_of defs.old.items ++ def_of def.entry ∷ [] else defs_of defs.old.items)) }
{
    if wanted {
        defs.push(def)?;
    }
    Ok(())
}

/// The first definition of each thing (C++14 3.2).
pub fn kept<'a>(alloc: Global, all: &[Found<'a>]) -> Result<Vec<Found<'a>>, AllocError>
    ensures { IfOk result (λ v. defs_of v.items ≡ kept_of [] (defs_of all.now)) }
{
    let mut kept = Vec::new(alloc);
    for def in all {
        let new = !has_same(&kept, def);
        add_if(&mut kept, new, *def)?;
    }
    Ok(kept)
}

/// The number of the definition that is kept for this one; as many as there are where none is.
pub fn number_in(def: &Found<'_>, kept: &[Found<'_>]) -> usize
    ensures number { result ≡ number_in (def_of def.now) (defs_of kept.now) }
    ensures within { result ≤ length kept.now }
{
    for (i, other) in kept.iter().enumerate() {
        if is_same(def, other) {
            return i;
        }
    }
    kept.len()
}

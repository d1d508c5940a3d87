//! Tables of what names stand for.
ghost use Rattle.std.specs.Prelude.{◌≡◌, ◌<◌, ℕ, List, Option, ◌++◌, ◌∷◌, [], Some, None, true, false, not, length, IfOk, slice_get, slice_set, slice_index};
ghost use Rattle.std.specs.List.{All};
ghost use Rattle.link_tables.specs.declared.symbols.Symbol.{Symbol};
ghost use Rattle.link_tables.specs.declared.symbols.Numbered.{Numbered};
ghost use Rattle.link_tables.specs.Symbols.{Seen, Tells, TellsDefs, comes_again, has_place, has_rank, number_of, number_for};

use crate::symbols::{Numbered, Symbol};
use std::alloc::{AllocError, Global};

pub(crate) fn no_marks(alloc: Global, names: usize) -> Result<Vec<bool>, AllocError>
    ensures seen { IfOk result (λ v. Seen [] v.items) }
    ensures length { IfOk result (λ v. length v.items ≡ names) }
{
    vec![in alloc; false; names]
}

/// Whether no earlier definition has the symbol, which is then noted.
pub(crate) fn is_new(seen: &mut Vec<bool>, symbol: Symbol) -> bool
    requires { symbol.rank < length seen.old.items }
    ensures new { (earlier : List Symbol) → Seen earlier seen.old.items → result ≡ not (comes_again earlier symbol) }
    ensures noted { (earlier : List Symbol) → Seen earlier seen.old.items → result ≡ true → Seen (earlier ++ symbol ∷ []) seen.new.items }
    ensures left { result ≡ false → seen.new.items ≡ seen.old.items }
    ensures length { length seen.new.items ≡ length seen.old.items }
{
    if symbol.internal {
        return true;
    }
    if seen[symbol.rank as usize] {
        return false;
    }
    seen[symbol.rank as usize] = true;
    true
}

fn no_numbers(alloc: Global, names: usize) -> Result<Vec<Option<u32>>, AllocError>
    ensures tells { IfOk result (λ v. Tells (λ _. None) v.items) }
    ensures length { IfOk result (λ v. length v.items ≡ names) }
{
    vec![in alloc; None; names]
}

/// Notes what a key stands for where nothing is noted of it.
fn note(table: &mut Vec<Option<u32>>, key: u32, number: u32)
    requires { key < length table.old.items }
    ensures first { slice_get table.old.items key ≡ Some None → table.new.items ≡ slice_set table.old.items key (Some number) }
    ensures later { (n : ℕ) → slice_get table.old.items key ≡ Some (Some n) → table.new.items ≡ table.old.items }
    ensures length { length table.new.items ≡ length table.old.items }
{
    if table[key as usize].is_none() {
        table[key as usize] = Some(number);
    }
}

/// Notes a definition that other objects see by its rank.
fn note_rank(table: &mut Vec<Option<u32>>, def: Numbered)
    requires { def.symbol.rank < length table.old.items }
    ensures tells { (defs : List Numbered) → Tells (λ k. number_of (has_rank k) defs) table.old.items → Tells (λ k. number_of (has_rank k) (defs ++ def ∷ [])) table.new.items }
    ensures length { length table.new.items ≡ length table.old.items }
{
    if !def.symbol.internal {
        note(table, def.symbol.rank, def.number);
    }
}

/// Notes an internal definition by the place of its name.
fn note_place(table: &mut Vec<Option<u32>>, def: Numbered)
    requires { def.symbol.place < length table.old.items }
    ensures tells { (defs : List Numbered) → Tells (λ k. number_of (has_place k) defs) table.old.items → Tells (λ k. number_of (has_place k) (defs ++ def ∷ [])) table.new.items }
    ensures length { length table.new.items ≡ length table.old.items }
{
    if def.symbol.internal {
        note(table, def.symbol.place, def.number);
    }
}

/// Of each rank the number of the first definition that other objects see.
pub(crate) fn by_rank(
    alloc: Global,
    names: usize,
    defs: &[Numbered],
) -> Result<Vec<Option<u32>>, AllocError>
    requires { All (λ d. d.symbol.rank < names) defs.now }
    ensures tells { IfOk result (λ v. Tells (λ k. number_of (has_rank k) defs.now) v.items) }
    ensures length { IfOk result (λ v. length v.items ≡ names) }
{
    let mut table = no_numbers(alloc, names)?;
    for def in defs {
        note_rank(&mut table, *def);
    }
    Ok(table)
}

/// Of each place the number of the first internal definition.
fn by_place(alloc: Global, places: usize, defs: &[Numbered]) -> Result<Vec<Option<u32>>, AllocError>
    requires { All (λ d. d.symbol.place < places) defs.now }
    ensures tells { IfOk result (λ v. Tells (λ k. number_of (has_place k) defs.now) v.items) }
    ensures length { IfOk result (λ v. length v.items ≡ places) }
{
    let mut table = no_numbers(alloc, places)?;
    for def in defs {
        note_place(&mut table, *def);
    }
    Ok(table)
}

fn number_at(own: &[Option<u32>], seen: &[Option<u32>], place: usize, rank: u32) -> Option<u32>
    requires place { place < length own.now }
    requires rank { rank < length seen.now }
    ensures { (defs : List Numbered) (ranks : List ℕ) → slice_index ranks place ≡ rank → Tells (λ k. number_of (has_place k) defs) own.now → Tells (λ k. number_of (has_rank k) defs) seen.now → result ≡ number_for ranks defs place }
{
    match own[place] {
        Some(number) => Some(number),
        None => seen[rank as usize],
    }
}

/// What the name at each place stands for: the internal definition of its object, or else the first that others see.
pub fn numbers(
    alloc: Global,
    names: usize,
    ranks: &[u32],
    defs: &[Numbered],
) -> Result<Vec<Option<u32>>, AllocError>
    requires ranks { All (λ r. r < names) ranks.now }
    requires within { All (λ d. d.symbol.rank < names) defs.now }
    requires places { All (λ d. d.symbol.place < length ranks.now) defs.now }
    ensures { IfOk result (λ v. TellsDefs ranks.now defs.now v.items) }
{
    let own = by_place(alloc, ranks.len(), defs)?;
    let seen = by_rank(alloc, names, defs)?;
    let mut table = Vec::new(alloc);
    for rank in ranks {
        table.push(number_at(&own, &seen, table.len(), *rank))?;
    }
    Ok(table)
}

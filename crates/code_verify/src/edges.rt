//! The indexes of a body that a row of a block's edge covers.
ghost use Rattle.std.specs.Prelude.{◌≡◌, ◌<◌, ◌≤◌, ◌&&◌, ◌||◌, ℕ, false, length, IfOk, replicate, slice_index_or};
ghost use Rattle.tx_code.specs.Meaning.{covers};
ghost use Rattle.tx_code.specs.Sound.{is_edge, has_edge};

use crate::clauses::is_edge;
use std::alloc::{AllocError, Global};
use tx_code::Row;

// No index is covered.
fn none_covered(alloc: Global, count: usize) -> Result<Vec<bool>, AllocError>
    ensures { IfOk result (λ covered. covered.items ≡ replicate count false) }
{
    let mut covered = Vec::new(alloc);
    for _ in 0..count {
        covered.push(false)?;
    }
    Ok(covered)
}

// Where a row ends, as far as there are so many indexes.
fn end_within(count: usize, to: u32) -> usize
    ensures count { result ≤ count }
    ensures row { to < count → result ≡ to }
    ensures all { count ≤ to → result ≡ count }
{
    if (to as usize) < count {
        to as usize
    } else {
        count
    }
}

// The indexes that a row covers are marked.
fn mark(covered: &mut Vec<bool>, row: Row)
    ensures len { length covered.new.items ≡ length covered.old.items }
    ensures marks { (i : ℕ) → i < length covered.old.items → slice_index_or covered.new.items i false ≡ (slice_index_or covered.old.items i false || covers row i) }
{
    let end = end_within(covered.len(), row.to);
    for index in row.from as usize..end {
        covered[index] = true;
    }
}

// Those of an edge row.
fn mark_edge(covered: &mut Vec<bool>, row: Row)
    ensures len { length covered.new.items ≡ length covered.old.items }
    ensures marks { (i : ℕ) → i < length covered.old.items → slice_index_or covered.new.items i false ≡ (slice_index_or covered.old.items i false || (is_edge row && covers row i)) }
{
    if is_edge(row) {
        mark(covered, row);
    }
}

/// Of so many indexes, whether an edge row covers them.
pub(crate) fn covered_by_edges(
    alloc: Global,
    rows: &[Row],
    count: usize,
) -> Result<Vec<bool>, AllocError>
    ensures len { IfOk result (λ covered. length covered.items ≡ count) }
    ensures is { IfOk result (λ covered. (i : ℕ) → i < count → slice_index_or covered.items i false ≡ has_edge rows.now i) }
{
    let mut covered = none_covered(alloc, count)?;
    for row in rows {
        mark_edge(&mut covered, *row);
    }
    Ok(covered)
}

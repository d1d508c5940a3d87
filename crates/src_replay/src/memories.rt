//! The memory at the start.

ghost use Rattle.std.specs.Prelude.{◌≡◌, ◌≤◌, ◌<◌, ◌+◌, ◌*◌, ◌/◌, true, IfOk};
ghost use Rattle.std.specs.List.{list_all};
ghost use Rattle.tx_events.specs.Memory.{no_bytes, with_cells};
ghost use Rattle.tx_events.specs.declared.TheConstants.{THREAD_LIMIT};
ghost use Rattle.tx_memory.specs.Cells.{lies_within as is_within};
ghost use Rattle.tx_memory.specs.View.{layout_of, words_of};
ghost use Rattle.src_mean.specs.Links.{first_cells as cells_of_all, globals_size as size_of_globals};
ghost use Rattle.src_bind.specs.Bounds.{given};
ghost use Rattle.src_bind.specs.Tables.{CanBind, typed, linked_of};

use crate::block::fits;
use src_bind::Bound;
use src_link::{first_cells, globals_size};
use std::alloc::{AllocError, Global};
use tx_events::{GlobalCell, THREAD_LIMIT};
use tx_memory::Memory;

// Whether a cell lies within so many bytes, at a multiple of its size, and has a value that fits.
fn lies_within(size: u32, cell: &GlobalCell) -> bool
    ensures { result ≡ true → is_within size cell.now ≡ true }
{
    if !fits(cell.size, cell.value) {
        return false;
    }
    let end = u64::from(cell.offset) + u64::from(cell.size);
    cell.offset % u32::from(cell.size) == 0 && end <= u64::from(size)
}

// Whether all cells do.
fn lie_within(size: u32, cells: &[GlobalCell]) -> bool
    ensures { result ≡ true → list_all (is_within size) cells.now ≡ true }
{
    for cell in cells {
        if !lies_within(size, cell) {
            return false;
        }
    }
    true
}

/// The memory at the start, with so many stacks. Cells that do not lie in the globals, which no well-formed program has,
/// count as want of memory.
pub(crate) fn first_memory(
    alloc: Global,
    bound: &Bound<'_>,
    threads: u8,
) -> Result<Memory, AllocError>
    requires can { CanBind (typed (given bound.now)) }
    requires some { 0 < threads }
    requires limit { threads ≤ THREAD_LIMIT }
    ensures layout { IfOk result (λ m. layout_of m ≡ record { globals = (size_of_globals (typed (given bound.now)) + 7) / 8 * 8; limit = threads }) }
    ensures words { IfOk result (λ m. words_of m ≡ with_cells no_bytes (cells_of_all (typed (given bound.now)) (linked_of (given bound.now)))) }
{
    let cells = first_cells(alloc, bound)?;
    let size = globals_size(alloc, bound.program())?;
    let whole = (size + 7) / 8 * 8;
    if lie_within(whole, &cells) {
        Memory::new(alloc, &cells, whole, threads)
    } else {
        Err(AllocError)
    }
}

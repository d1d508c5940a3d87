//! Globals.
ghost use Rattle.std.specs.Prelude.{◌≡◌, true, not, IfOk, ◌&&◌, ◌||◌, ◌+◌, ◌*◌, ◌^◌, map, None, nat_eq, nat_lt, nat_le};
ghost use Rattle.tx_code.specs.Objects.{GlobalView, global_view};
ghost use Rattle.tx_code.specs.WellFormed.{is_cell_size, is_multiple, same};
ghost use Rattle.object_file.specs.Reading.{Gives};
ghost use Rattle.object_bytes.specs.Decoder.{such_that, u8, u32, u64, items, list};
ghost use Rattle.object_bytes.specs.Fields.{name_or_none, is_clear, cell, global};

use crate::fault::ReadError;
use crate::numbers::{
    name_at, name_or_none_at, next_name_at, u8_at, u8_below_at, u32_at, u64_at, wrong,
};
use std::alloc::Global;
use tx_code::{ObjCell, ObjGlobal};

#[tactic(auto, unfolding(object_bytes::specs::Decoder::such_that))]
fn cell_offset_at(before: Option<ObjCell>, bytes: &[u8]) -> Result<(u32, &[u8]), ReadError>
    ensures { Gives (λ x. (x.0, x.1.now)) result (such_that u32 (is_clear before) bytes.now) }
{
    let (offset, rest) = u32_at(bytes)?;
    if before.is_some_and(|before| u64::from(before.offset) + u64::from(before.size)
        > u64::from(offset))
    {
        return Err(wrong(bytes));
    }
    Ok((offset, rest))
}

fn is_cell_size_at(size: u8, offset: u32, global_size: u32) -> bool
    ensures { result ≡ is_cell_size size && is_multiple offset size && nat_le (offset + size) global_size }
{
    (size == 1 || size == 2 || size == 4 || size == 8)
        && offset % u32::from(size) == 0
        && u64::from(offset) + u64::from(size) <= u64::from(global_size)
}

#[tactic(auto, unfolding(object_bytes::specs::Decoder::such_that))]
fn cell_size_at(offset: u32, global_size: u32, bytes: &[u8]) -> Result<(u8, &[u8]), ReadError>
    ensures read { Gives (λ x. (x.0, x.1.now)) result (such_that u8 (λ s. is_cell_size s && is_multiple offset s && nat_le (offset + s) global_size) bytes.now) }
    ensures size { IfOk result (λ x. is_cell_size x.0 ≡ true) }
{
    let (size, rest) = u8_at(bytes)?;
    if !is_cell_size_at(size, offset, global_size) {
        return Err(wrong(bytes));
    }
    Ok((size, rest))
}

#[tactic(auto, unfolding(object_bytes::specs::Decoder::such_that))]
fn cell_kind_at(size: u8, bytes: &[u8]) -> Result<(u8, &[u8]), ReadError>
    ensures { Gives (λ x. (x.0, x.1.now)) result (such_that u8 (λ w. nat_lt w 3 && (nat_eq w 0 || nat_eq size 8)) bytes.now) }
{
    let (what, rest) = u8_at(bytes)?;
    if what >= 3 || (what != 0 && size != 8) {
        return Err(wrong(bytes));
    }
    Ok((what, rest))
}

/// A number fits a cell of this size, of 1, 2, 4 or 8 bytes.
fn fits_cell(size: u8, value: u64) -> bool
    requires { is_cell_size size ≡ true }
    ensures { result ≡ nat_lt value (2 ^ (8 * size)) }
{
    match size {
        1 => value < 1 << 8,
        2 => value < 1 << 16,
        4 => value < 1 << 32,
        _ => true,
    }
}

#[tactic(auto, unfolding(object_bytes::specs::Decoder::such_that))]
fn cell_value_at(size: u8, bytes: &[u8]) -> Result<(u64, &[u8]), ReadError>
    requires { is_cell_size size ≡ true }
    ensures { Gives (λ x. (x.0, x.1.now)) result (such_that u64 (λ v. nat_lt v (2 ^ (8 * size))) bytes.now) }
{
    let (value, rest) = u64_at(bytes)?;
    if !fits_cell(size, value) {
        return Err(wrong(bytes));
    }
    Ok((value, rest))
}

#[tactic(auto, unfolding(object_bytes::specs::Decoder::such_that))]
fn cell_symbol_at(names: usize, what: u8, bytes: &[u8]) -> Result<(u32, &[u8]), ReadError>
    ensures { Gives (λ x. (x.0, x.1.now)) result (such_that (name_or_none names) (λ s. same (nat_eq what 0) (nat_eq s 0)) bytes.now) }
{
    let (symbol, rest) = name_or_none_at(names, bytes)?;
    if (what == 0) != (symbol == 0) {
        return Err(wrong(bytes));
    }
    Ok((symbol, rest))
}

#[tactic(auto, unfolding(object_bytes::specs::Decoder::bind, object_bytes::specs::Decoder::done, object_bytes::specs::Fields::cell))]
fn cell_at(
    names: usize,
    global_size: u32,
    before: Option<ObjCell>,
    bytes: &[u8],
) -> Result<(ObjCell, &[u8]), ReadError>
    ensures { Gives (λ x. (x.0, x.1.now)) result (cell names global_size before bytes.now) }
{
    let (offset, rest) = cell_offset_at(before, bytes)?;
    let (size, rest) = cell_size_at(offset, global_size, rest)?;
    let (what, rest) = cell_kind_at(size, rest)?;
    let (value, rest) = cell_value_at(size, rest)?;
    let (symbol, rest) = cell_symbol_at(names, what, rest)?;
    Ok((
        ObjCell {
            offset,
            size,
            what,
            value,
            symbol,
        },
        rest,
    ))
}

fn cells_at(
    alloc: Global,
    names: usize,
    global_size: u32,
    count: u32,
    bytes: &[u8],
) -> Result<(Vec<ObjCell>, &[u8]), ReadError>
    ensures { Gives (λ x. (x.0.items, x.1.now)) result (items (λ c. c) (cell names global_size) None count bytes.now) }
{
    let mut rest = bytes;
    let mut cells = Vec::new(alloc);
    let mut before = None;
    for _ in 0..count {
        let (cell, after) = cell_at(names, global_size, before, rest)?;
        cells.push(cell)?;
        before = Some(cell);
        rest = after;
    }
    Ok((cells, rest))
}

#[tactic(auto, unfolding(object_bytes::specs::Decoder::such_that))]
fn global_size_at(defined: u8, bytes: &[u8]) -> Result<(u32, &[u8]), ReadError>
    ensures { Gives (λ x. (x.0, x.1.now)) result (such_that u32 (λ s. same (nat_eq defined 0) (nat_eq s 0)) bytes.now) }
{
    let (size, rest) = u32_at(bytes)?;
    if (defined == 0) != (size == 0) {
        return Err(wrong(bytes));
    }
    Ok((size, rest))
}

#[tactic(auto, unfolding(object_bytes::specs::Decoder::such_that))]
fn cell_count_at(defined: u8, bytes: &[u8]) -> Result<(u32, &[u8]), ReadError>
    ensures { Gives (λ x. (x.0, x.1.now)) result (such_that u32 (λ c. not (nat_eq defined 0) || nat_eq c 0) bytes.now) }
{
    let (count, rest) = u32_at(bytes)?;
    if defined == 0 && count != 0 {
        return Err(wrong(bytes));
    }
    Ok((count, rest))
}

#[tactic(auto, unfolding(object_bytes::specs::Decoder::bind, object_bytes::specs::Decoder::done, object_bytes::specs::Fields::global))]
fn global_at(
    alloc: Global,
    names: usize,
    before: Option<u32>,
    bytes: &[u8],
) -> Result<(ObjGlobal, &[u8]), ReadError>
    ensures { Gives (λ x. (global_view x.0, x.1.now)) result (global names before bytes.now) }
{
    let (symbol, rest) = next_name_at(names, before, bytes)?;
    let (ty, rest) = name_at(names, rest)?;
    let (linkage, rest) = u8_below_at(2, rest)?;
    let (defined, rest) = u8_below_at(2, rest)?;
    let (size, rest) = global_size_at(defined, rest)?;
    let (count, rest) = cell_count_at(defined, rest)?;
    let (cells, rest) = cells_at(alloc, names, size, count, rest)?;
    Ok((
        ObjGlobal {
            symbol,
            ty,
            linkage,
            defined,
            size,
            cells,
        },
        rest,
    ))
}

#[tactic(auto, unfolding(object_bytes::specs::Decoder::bind, object_bytes::specs::Decoder::list))]
pub(crate) fn globals_at(
    alloc: Global,
    names: usize,
    bytes: &[u8],
) -> Result<(Vec<ObjGlobal>, &[u8]), ReadError>
    ensures { Gives (λ x. (map global_view x.0.items, x.1.now)) result (list (λ (g : GlobalView). g.symbol) (global names) bytes.now) }
{
    let (count, mut rest) = u32_at(bytes)?;
    let mut globals = Vec::new(alloc);
    let mut before = None;
    for _ in 0..count {
        let (global, after) = global_at(alloc, names, before, rest)?;
        before = Some(global.symbol);
        globals.push(global)?;
        rest = after;
    }
    Ok((globals, rest))
}

//! Bodies.
ghost use Rattle.std.specs.Prelude.{◌≡◌, map, not, ◌&&◌, ◌||◌, nat_eq, nat_lt};
ghost use Rattle.tx_code.specs.WellFormed.{is_name};
ghost use Rattle.tx_code.specs.Objects.{body_view};
ghost use Rattle.object_file.specs.Reading.{Gives};
ghost use Rattle.object_bytes.specs.Decoder.{each, list, such_that, u32};
ghost use Rattle.object_bytes.specs.Fields.{row, line_row, line_rows, from_above, line_differs, body};
ghost use Rattle.object_bytes.specs.Instructions.{instr};

use crate::fault::ReadError;
use crate::instrs::instr_at;
use crate::numbers::{name_at, u8_at, u32_at, wrong};
use std::alloc::Global;
use tx_code::{Body, Instr, LineRow, Row};

#[tactic(auto, unfolding(object_bytes::specs::Decoder::bind, object_bytes::specs::Decoder::list))]
fn code_at(alloc: Global, names: usize, bytes: &[u8]) -> Result<(Vec<Instr>, &[u8]), ReadError>
    ensures { Gives (λ x. (x.0.items, x.1.now)) result (each (instr names) bytes.now) }
{
    let (count, mut rest) = u32_at(bytes)?;
    let mut code = Vec::new(alloc);
    for _ in 0..count {
        let (instr, after) = instr_at(names, rest)?;
        code.push(instr)?;
        rest = after;
    }
    Ok((code, rest))
}

/// The type of a row: a name, if the row names it.
#[tactic(auto, unfolding(object_bytes::specs::Decoder::such_that))]
fn row_type_at(names: usize, what: u8, bytes: &[u8]) -> Result<(u32, &[u8]), ReadError>
    ensures { Gives (λ x. (x.0, x.1.now)) result (such_that u32 (λ ty. not (nat_eq what 1) || is_name names ty) bytes.now) }
{
    let (ty, rest) = u32_at(bytes)?;
    if what == 1 && ty as usize >= names {
        return Err(wrong(bytes));
    }
    Ok((ty, rest))
}

#[tactic(auto, unfolding(object_bytes::specs::Decoder::bind, object_bytes::specs::Decoder::done, object_bytes::specs::Fields::row))]
fn row_at(names: usize, bytes: &[u8]) -> Result<(Row, &[u8]), ReadError>
    ensures { Gives (λ x. (x.0, x.1.now)) result (row names bytes.now) }
{
    let (from, rest) = u32_at(bytes)?;
    let (to, rest) = u32_at(rest)?;
    let (target, rest) = u32_at(rest)?;
    let (what, rest) = u8_at(rest)?;
    let (ty, rest) = row_type_at(names, what, rest)?;
    let (depth, rest) = u32_at(rest)?;
    Ok((
        Row {
            from,
            to,
            target,
            what,
            ty,
            depth,
        },
        rest,
    ))
}

#[tactic(auto, unfolding(object_bytes::specs::Decoder::bind, object_bytes::specs::Decoder::list))]
fn rows_at(alloc: Global, names: usize, bytes: &[u8]) -> Result<(Vec<Row>, &[u8]), ReadError>
    ensures { Gives (λ x. (x.0.items, x.1.now)) result (each (row names) bytes.now) }
{
    let (count, mut rest) = u32_at(bytes)?;
    let mut rows = Vec::new(alloc);
    for _ in 0..count {
        let (row, after) = row_at(names, rest)?;
        rows.push(row)?;
        rest = after;
    }
    Ok((rows, rest))
}

#[tactic(auto, unfolding(object_bytes::specs::Decoder::such_that))]
fn line_from_at(
    instrs: usize,
    before: Option<LineRow>,
    bytes: &[u8],
) -> Result<(u32, &[u8]), ReadError>
    ensures { Gives (λ x. (x.0, x.1.now)) result (such_that u32 (λ from. nat_lt from instrs && from_above before from) bytes.now) }
{
    let (from, rest) = u32_at(bytes)?;
    if from as usize >= instrs {
        return Err(wrong(bytes));
    }
    if before.is_some_and(|before| before.from >= from) {
        return Err(wrong(bytes));
    }
    Ok((from, rest))
}

#[tactic(auto, unfolding(object_bytes::specs::Decoder::such_that))]
fn line_number_at(before: Option<LineRow>, bytes: &[u8]) -> Result<(u32, &[u8]), ReadError>
    ensures { Gives (λ x. (x.0, x.1.now)) result (such_that u32 (line_differs before) bytes.now) }
{
    let (line, rest) = u32_at(bytes)?;
    if before.is_some_and(|before| before.line == line) {
        return Err(wrong(bytes));
    }
    Ok((line, rest))
}

#[tactic(auto, unfolding(object_bytes::specs::Decoder::bind, object_bytes::specs::Decoder::done, object_bytes::specs::Fields::line_row))]
fn line_row_at(
    instrs: usize,
    before: Option<LineRow>,
    bytes: &[u8],
) -> Result<(LineRow, &[u8]), ReadError>
    ensures { Gives (λ x. (x.0, x.1.now)) result (line_row instrs before bytes.now) }
{
    let (from, rest) = line_from_at(instrs, before, bytes)?;
    let (line, rest) = line_number_at(before, rest)?;
    Ok((LineRow { from, line }, rest))
}

#[tactic(auto, unfolding(object_bytes::specs::Decoder::bind, object_bytes::specs::Decoder::list))]
fn lines_at(alloc: Global, instrs: usize, bytes: &[u8]) -> Result<(Vec<LineRow>, &[u8]), ReadError>
    ensures { Gives (λ x. (x.0.items, x.1.now)) result (list (λ l. l) (line_row instrs) bytes.now) }
{
    let (count, mut rest) = u32_at(bytes)?;
    let mut lines = Vec::new(alloc);
    let mut before = None;
    for _ in 0..count {
        let (line, after) = line_row_at(instrs, before, rest)?;
        lines.push(line)?;
        before = Some(line);
        rest = after;
    }
    Ok((lines, rest))
}

#[tactic(auto, unfolding(object_bytes::specs::Decoder::done, object_bytes::specs::Fields::line_rows))]
fn line_rows_at(
    alloc: Global,
    version: u32,
    instrs: usize,
    bytes: &[u8],
) -> Result<(Vec<LineRow>, &[u8]), ReadError>
    ensures { Gives (λ x. (x.0.items, x.1.now)) result (line_rows version instrs bytes.now) }
{
    if version == 2 {
        return lines_at(alloc, instrs, bytes);
    }
    Ok((Vec::new(alloc), bytes))
}

#[tactic(auto, unfolding(object_bytes::specs::Decoder::bind, object_bytes::specs::Decoder::done, object_bytes::specs::Fields::body))]
pub(crate) fn body_at(
    alloc: Global,
    version: u32,
    names: usize,
    bytes: &[u8],
) -> Result<(Body, &[u8]), ReadError>
    ensures { Gives (λ x. (body_view x.0, x.1.now)) result (body version names bytes.now) }
{
    let (code, rest) = code_at(alloc, names, bytes)?;
    let (rows, rest) = rows_at(alloc, names, rest)?;
    let (lines, rest) = line_rows_at(alloc, version, code.len(), rest)?;
    Ok((Body { code, rows, lines }, rest))
}

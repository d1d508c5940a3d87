//! Bodies.
ghost use Rattle.std.specs.Prelude.{◌≡◌, ◌++◌, ◌^◌, nat_lt};
ghost use Rattle.std.specs.List.{list_all, flat_map};
ghost use Rattle.std.specs.Option.{option_map};
ghost use Rattle.tx_code.specs.Objects.{body_view};
ghost use Rattle.tx_code.specs.WellFormed.{is_name, named_by, named_by_row, is_line as is_line_of, lines_fit as fit_lines, body_fits as fits_body, some_fits as fits_some};

use crate::order::lines_ascend;
use object_bytes::instr_name;
use tx_code::{Body, Instr, LineRow, Row};

/// Whether so many items can be counted, by a number of 32 bits.
pub fn is_count(count: usize) -> bool
    ensures { result ≡ nat_lt count (2 ^ 32) }
{
    count < 0x1_0000_0000
}

fn instr_fits(names: usize, instr: Instr) -> bool
    ensures { result ≡ list_all (is_name names) (named_by instr) }
{
    match instr_name(instr) {
        None => true,
        Some(name) => (name as usize) < names,
    }
}

fn code_fits(names: usize, code: &[Instr]) -> bool
    ensures { result ≡ list_all (λ instr. list_all (is_name names) (named_by instr)) code.now }
{
    for instr in code {
        if !instr_fits(names, *instr) {
            return false;
        }
    }
    true
}

fn row_fits(names: usize, row: Row) -> bool
    ensures { result ≡ list_all (is_name names) (named_by_row row) }
{
    row.what != 1 || (row.ty as usize) < names
}

fn rows_fit(names: usize, rows: &[Row]) -> bool
    ensures { result ≡ list_all (λ row. list_all (is_name names) (named_by_row row)) rows.now }
{
    for row in rows {
        if !row_fits(names, *row) {
            return false;
        }
    }
    true
}

// Whether what a body names are names.
#[tactic(auto, using(crate::proofs::Named::body_named))]
fn names_fit(names: usize, body: &Body) -> bool
    ensures { result ≡ list_all (is_name names) (flat_map named_by body.now.code.items ++ flat_map named_by_row body.now.rows.items) }
{
    code_fits(names, &body.code) && rows_fit(names, &body.rows)
}

fn are_lines(instrs: usize, lines: &[LineRow]) -> bool
    ensures { result ≡ list_all (is_line_of instrs) lines.now }
{
    for line in lines {
        if line.from as usize >= instrs {
            return false;
        }
    }
    true
}

fn lines_fit(version: u32, instrs: usize, lines: &[LineRow]) -> bool
    ensures { result ≡ fit_lines version instrs lines.now }
{
    is_count(lines.len())
        && are_lines(instrs, lines)
        && lines_ascend(lines)
        && (version == 2 || lines.len() == 0)
}

fn body_fits(version: u32, names: usize, body: &Body) -> bool
    ensures { result ≡ fits_body version names (body_view body.now) }
{
    is_count(body.code.len())
        && is_count(body.rows.len())
        && names_fit(names, body)
        && lines_fit(version, body.code.len(), &body.lines)
}

/// Whether a body, if there is one, has names and lines as an object has them.
pub fn some_fits(version: u32, names: usize, body: &Option<Body>) -> bool
    ensures { result ≡ fits_some version names (option_map body_view body.now) }
{
    match body {
        Some(body) => body_fits(version, names, body),
        None => true,
    }
}

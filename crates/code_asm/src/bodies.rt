//! Lines of bodies.
ghost use Rattle.std.specs.Prelude.{◌≡◌, ◌&&◌, ◌+◌, ◌^◌, length, nat_eq, nat_lt};
ghost use Rattle.std.specs.List.{list_all};
ghost use Rattle.tx_code.specs.Objects.{body_view};
ghost use Rattle.tx_code.specs.WellFormed.{is_name, named_by, named_by_row, line_after};
ghost use Rattle.object_bytes.specs.Fields.{above};
ghost use Rattle.assembly_text.specs.declared.line.Record.TheVariants as kind;
ghost use Rattle.code_asm.specs.Steps.{is_nil, has_room, last_of, takes_code, body_step};
ghost use Rattle.code_asm.specs.Views.{Stepped};

use crate::fault::Stop;
use assembly_text::Record;
use object_bytes::instr_name;
use tx_code::{Body, Instr, LineRow, Row};

/// How many items a list has at most, since their count is a number of 32 bits.
const MOST_ITEMS: usize = 0xffff_ffff;

/// Whether one item more can be counted behind so many.
pub(crate) fn has_room(count: usize) -> bool
    ensures { result ≡ nat_lt (count + 1) (2 ^ 32) }
{
    count < MOST_ITEMS
}

fn instr_fits(names: usize, instr: Instr) -> bool
    ensures { result ≡ list_all (is_name names) (named_by instr) }
{
    match instr_name(instr) {
        None => true,
        Some(name) => (name as usize) < names,
    }
}

fn row_fits(names: usize, row: Row) -> bool
    ensures { result ≡ list_all (is_name names) (named_by_row row) }
{
    row.what != 1 || (row.ty as usize) < names
}

fn follows(before: Option<LineRow>, line: LineRow) -> bool
    ensures { result ≡ above line_after before line }
{
    match before {
        None => true,
        Some(before) => before.from < line.from && before.line != line.line,
    }
}

/// Whether an instruction may be the next line.
pub(crate) fn takes_code(body: &Body) -> bool
    ensures { result ≡ takes_code (body_view body.now) }
{
    body.rows.is_empty() && body.lines.is_empty()
}

fn takes_instr(body: &Body, names: usize, instr: Instr) -> bool
    ensures { result ≡ (takes_code (body_view body.now) && has_room body.now.code.items && list_all (is_name names) (named_by instr)) }
{
    takes_code(body) && has_room(body.code.len()) && instr_fits(names, instr)
}

fn takes_row(body: &Body, names: usize, row: Row) -> bool
    ensures { result ≡ (is_nil body.now.lines.items && has_room body.now.rows.items && list_all (is_name names) (named_by_row row)) }
{
    body.lines.is_empty() && has_room(body.rows.len()) && row_fits(names, row)
}

fn last_line(lines: &[LineRow]) -> Option<LineRow>
    ensures { result ≡ last_of lines.now }
{
    lines.last().copied()
}

fn takes_line(body: &Body, version: u32, line: LineRow) -> bool
    ensures { result ≡ (nat_eq version 2 && has_room body.now.lines.items && nat_lt line.from (length body.now.code.items) && above line_after (last_of body.now.lines.items) line) }
{
    version == 2
        && has_room(body.lines.len())
        && (line.from as usize) < body.code.len()
        && follows(last_line(&body.lines), line)
}

fn add_instr(body: Body, names: usize, instr: Instr) -> Result<Body, Stop>
    ensures { Stepped body_view result (body_step 0 names (body_view body) (kind.Code instr)) }
{
    if !takes_instr(&body, names, instr) {
        return Err(Stop::Wrong);
    }
    let Body {
        mut code,
        rows,
        lines,
    } = body;
    code.push(instr)?;
    Ok(Body { code, rows, lines })
}

fn add_row(body: Body, names: usize, row: Row) -> Result<Body, Stop>
    ensures { Stepped body_view result (body_step 0 names (body_view body) (kind.Row row)) }
{
    if !takes_row(&body, names, row) {
        return Err(Stop::Wrong);
    }
    let Body {
        code,
        mut rows,
        lines,
    } = body;
    rows.push(row)?;
    Ok(Body { code, rows, lines })
}

fn add_line(body: Body, version: u32, line: LineRow) -> Result<Body, Stop>
    ensures { Stepped body_view result (body_step version 0 (body_view body) (kind.Line line)) }
{
    if !takes_line(&body, version, line) {
        return Err(Stop::Wrong);
    }
    let Body {
        code,
        rows,
        mut lines,
    } = body;
    lines.push(line)?;
    Ok(Body { code, rows, lines })
}

/// Adds a line of a body to one.
pub(crate) fn add_to_body(
    body: Body,
    version: u32,
    names: usize,
    line: Record,
) -> Result<Body, Stop>
    ensures { Stepped body_view result (body_step version names (body_view body) line) }
{
    match line {
        Record::Code(instr) => add_instr(body, names, instr),
        Record::Row(row) => add_row(body, names, row),
        Record::Line(line) => add_line(body, version, line),
        _ => Err(Stop::Wrong),
    }
}

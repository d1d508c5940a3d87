//! Bodies with the numbers that names stand for.
ghost use Rattle.std.specs.Prelude.{◌≡◌, ◌+◌, map, unwrap_or, IfOk};
ghost use Rattle.std.specs.Option.{option_map};
ghost use Rattle.tx_code.specs.Objects.{body_view};
ghost use Rattle.tx_code.specs.Linked.{absent, no_body, or_none};
ghost use Rattle.tx_code.specs.Renaming.{renamed, renamed_body, renamed_row};
ghost use Rattle.link_tables.specs.Renamed.{numbering_in, told};

use std::alloc::{AllocError, Global};
use tx_code::{Body, Instr, LineRow, Row};

/// Stands for what the objects do not have.
pub const ABSENT: u32 = 4_294_967_295;

/// What the name at each place stands for: the offset of a global, and the index of a function, class or type.
#[derive(Drop)]
pub struct Numbers {
    pub globals: Vec<Option<u32>>,
    pub funcs: Vec<Option<u32>>,
    pub classes: Vec<Option<u32>>,
    pub types: Vec<Option<u32>>,
}

/// What a name stands for in the object whose names begin at this place.
pub fn number(table: &[Option<u32>], start: u32, name: u32) -> Option<u32>
    ensures { result ≡ told table.now (start + name) }
{
    match table.get(start as usize + name as usize) {
        Some(number) => *number,
        None => None,
    }
}

/// The same of a name that may be there: its number plus 1, or 0.
pub fn optional_number(table: &[Option<u32>], start: u32, name: u32) -> Option<u32>
    ensures { result ≡ or_none (λ n. told table.now (start + n)) name }
{
    if name == 0 {
        return None;
    }
    number(table, start, name - 1)
}

pub fn number_or_absent(table: &[Option<u32>], start: u32, name: u32) -> u32
    ensures { result ≡ unwrap_or (told table.now (start + name)) absent }
{
    match number(table, start, name) {
        Some(number) => number,
        None => ABSENT,
    }
}

fn renamed_instr(numbers: &Numbers, start: u32, instr: Instr) -> Instr
    ensures { result ≡ renamed (numbering_in numbers.now start) instr }
{
    match instr {
        Instr::GlobalAddr(s) => Instr::GlobalAddr(number_or_absent(&numbers.globals, start, s)),
        Instr::FuncAddr(s) => Instr::FuncAddr(number_or_absent(&numbers.funcs, start, s)),
        Instr::ClassAddr(s) => Instr::ClassAddr(number_or_absent(&numbers.classes, start, s)),
        Instr::Call { func, words } => Instr::Call {
            func: number_or_absent(&numbers.funcs, start, func),
            words,
        },
        Instr::TCall { func, words } => Instr::TCall {
            func: number_or_absent(&numbers.funcs, start, func),
            words,
        },
        Instr::CallIndirect { ty, words } => Instr::CallIndirect {
            ty: number_or_absent(&numbers.types, start, ty),
            words,
        },
        Instr::TCallIndirect { ty, words } => Instr::TCallIndirect {
            ty: number_or_absent(&numbers.types, start, ty),
            words,
        },
        Instr::Slot { class, slot } => Instr::Slot {
            class: number_or_absent(&numbers.classes, start, class),
            slot,
        },
        Instr::NewException(ty) => {
            Instr::NewException(number_or_absent(&numbers.types, start, ty))
        }
        other => other,
    }
}

fn row_in(numbers: &Numbers, start: u32, row: Row) -> Row
    ensures { result ≡ renamed_row (numbering_in numbers.now start) row }
{
    let ty = if row.what == 1 {
        number_or_absent(&numbers.types, start, row.ty)
    } else {
        row.ty
    };
    Row {
        from: row.from,
        to: row.to,
        target: row.target,
        what: row.what,
        ty,
        depth: row.depth,
    }
}

fn renamed_code(
    alloc: Global,
    numbers: &Numbers,
    start: u32,
    code: &[Instr],
) -> Result<Vec<Instr>, AllocError>
    ensures { IfOk result (λ v. v.items ≡ map (renamed (numbering_in numbers.now start)) code.now) }
{
    let mut copy = Vec::with_capacity(alloc, code.len())?;
    for instr in code {
        copy.push(renamed_instr(numbers, start, *instr))?;
    }
    Ok(copy)
}

fn renamed_rows(
    alloc: Global,
    numbers: &Numbers,
    start: u32,
    rows: &[Row],
) -> Result<Vec<Row>, AllocError>
    ensures { IfOk result (λ v. v.items ≡ map (renamed_row (numbering_in numbers.now start)) rows.now) }
{
    let mut copy = Vec::with_capacity(alloc, rows.len())?;
    for row in rows {
        copy.push(row_in(numbers, start, *row))?;
    }
    Ok(copy)
}

fn copied_lines(alloc: Global, lines: &[LineRow]) -> Result<Vec<LineRow>, AllocError>
    ensures { IfOk result (λ v. v.items ≡ lines.now) }
{
    Vec::from_slice(alloc, lines)
}

/// A body with what its names stand for.
fn body_in(alloc: Global, numbers: &Numbers, start: u32, body: &Body) -> Result<Body, AllocError>
    ensures { IfOk result (λ b. body_view b ≡ renamed_body (numbering_in numbers.now start) (body_view body.now)) }
{
    let code = renamed_code(alloc, numbers, start, &body.code)?;
    let rows = renamed_rows(alloc, numbers, start, &body.rows)?;
    let lines = copied_lines(alloc, &body.lines)?;
    Ok(Body { code, rows, lines })
}

/// The plain body of a definition. An object has it.
pub fn plain_in(
    alloc: Global,
    numbers: &Numbers,
    start: u32,
    body: &Option<Body>,
) -> Result<Body, AllocError>
    ensures { IfOk result (λ b. body_view b ≡ renamed_body (numbering_in numbers.now start) (unwrap_or (option_map body_view body.now) no_body)) }
{
    match body {
        Some(body) => body_in(alloc, numbers, start, body),
        None => Ok(Body {
            code: Vec::new(alloc),
            rows: Vec::new(alloc),
            lines: Vec::new(alloc),
        }),
    }
}

/// The safe body, where there is one.
pub fn safe_in(
    alloc: Global,
    numbers: &Numbers,
    start: u32,
    body: &Option<Body>,
) -> Result<Option<Body>, AllocError>
    ensures { IfOk result (λ b. option_map body_view b ≡ option_map (renamed_body (numbering_in numbers.now start)) (option_map body_view body.now)) }
{
    match body {
        Some(body) => {
            let copy = body_in(alloc, numbers, start, body)?;
            Ok(Some(copy))
        }
        None => Ok(None),
    }
}

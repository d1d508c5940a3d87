//! Lines of classes, globals and functions.
ghost use Rattle.std.specs.Prelude.{◌≡◌, ◌&&◌, ◌+◌, ◌*◌, ◌^◌, ◌⊎◌, true, not, nat_eq, nat_lt, nat_le, if◌then◌else◌};
ghost use Rattle.std.specs.Option.{option_map};
ghost use Rattle.tx_code.specs.Objects.{body_view, class_view, global_view, func_view};
ghost use Rattle.tx_code.specs.WellFormed.{is_name_or_none, member_fits, cell_fits, cell_kind_fits, is_cell_size, is_multiple, cell_after, bit};
ghost use Rattle.object_bytes.specs.Fields.{above};
ghost use Rattle.assembly_text.specs.declared.line.Record.TheVariants as kind;
ghost use Rattle.code_asm.specs.Steps.{is_nil, has_room, last_of, no_body, class_step, global_step, func_step, in_body, has_bodies, func_takes_code};
ghost use Rattle.code_asm.specs.Views.{Stepped};

use crate::bodies::{add_to_body, has_room, takes_code};
use crate::fault::Stop;
use assembly_text::Record;
use std::alloc::Global;
use tx_code::{Body, ObjCell, ObjClass, ObjFunc, ObjGlobal, ObjMember};

fn takes_member(class: &ObjClass, names: usize, member: ObjMember) -> bool
    ensures { result ≡ (is_nil class.now.slots.items && has_room class.now.members.items && member_fits names member) }
{
    class.slots.is_empty()
        && has_room(class.members.len())
        && (member.name as usize) < names
        && (member.ty as usize) < names
}

fn takes_slot(class: &ObjClass, names: usize, slot: u32) -> bool
    ensures { result ≡ (has_room class.now.slots.items && is_name_or_none names slot) }
{
    has_room(class.slots.len()) && slot as usize <= names
}

fn add_member(class: ObjClass, names: usize, member: ObjMember) -> Result<ObjClass, Stop>
    ensures { Stepped class_view result (class_step names (class_view class) (kind.Member member)) }
{
    if !takes_member(&class, names, member) {
        return Err(Stop::Wrong);
    }
    let mut class = class;
    class.members.push(member)?;
    Ok(class)
}

fn add_slot(class: ObjClass, names: usize, slot: u32) -> Result<ObjClass, Stop>
    ensures { Stepped class_view result (class_step names (class_view class) (kind.Slot slot)) }
{
    if !takes_slot(&class, names, slot) {
        return Err(Stop::Wrong);
    }
    let mut class = class;
    class.slots.push(slot)?;
    Ok(class)
}

pub(crate) fn add_to_class(class: ObjClass, names: usize, line: Record) -> Result<ObjClass, Stop>
    ensures { Stepped class_view result (class_step names (class_view class) line) }
{
    match line {
        Record::Member(member) => add_member(class, names, member),
        Record::Slot(slot) => add_slot(class, names, slot),
        _ => Err(Stop::Wrong),
    }
}

fn is_cell_size(size: u8) -> bool
    ensures { result ≡ is_cell_size size }
{
    size == 1 || size == 2 || size == 4 || size == 8
}

/// Whether a cell stands within so many bytes, at a multiple of its size.
fn lies_within(cell: ObjCell, size: u32) -> bool
    ensures { result ≡ (is_cell_size cell.size && is_multiple cell.offset cell.size && nat_le (cell.offset + cell.size) size) }
{
    if !is_cell_size(cell.size) {
        return false;
    }
    let length = u64::from(cell.size);
    let offset = u64::from(cell.offset);
    offset % length == 0 && offset + length <= u64::from(size)
}

/// Whether a value fits so many bytes.
fn value_fits(value: u64, size: u8) -> bool
    ensures { is_cell_size size ≡ true → result ≡ nat_lt value (2 ^ (8 * size)) }
{
    match size {
        1 => value < 0x100,
        2 => value < 0x1_0000,
        4 => value < 0x1_0000_0000,
        _ => true,
    }
}

fn kind_fits(cell: ObjCell) -> bool
    ensures { result ≡ cell_kind_fits cell }
{
    cell.what < 3 && (cell.what == 0 || cell.size == 8)
}

fn symbol_fits(cell: ObjCell, names: usize) -> bool
    ensures { result ≡ (is_name_or_none names cell.symbol && (if nat_eq cell.what 0 then nat_eq cell.symbol 0 else nat_lt 0 cell.symbol)) }
{
    cell.symbol as usize <= names && (cell.what == 0) == (cell.symbol == 0)
}

fn cell_fits(cell: ObjCell, names: usize, size: u32) -> bool
    ensures { result ≡ cell_fits names size cell }
{
    lies_within(cell, size)
        && kind_fits(cell)
        && value_fits(cell.value, cell.size)
        && symbol_fits(cell, names)
}

fn is_clear(before: Option<ObjCell>, cell: ObjCell) -> bool
    ensures { result ≡ above cell_after before cell }
{
    match before {
        None => true,
        Some(before) => {
            before.offset < cell.offset
                && u64::from(before.offset) + u64::from(before.size) <= u64::from(cell.offset)
        }
    }
}

fn last_cell(cells: &[ObjCell]) -> Option<ObjCell>
    ensures { result ≡ last_of cells.now }
{
    cells.last().copied()
}

fn takes_cell(global: &ObjGlobal, names: usize, cell: ObjCell) -> bool
    ensures { result ≡ (not (nat_eq global.now.defined 0) && has_room global.now.cells.items && cell_fits names global.now.size cell && above cell_after (last_of global.now.cells.items) cell) }
{
    global.defined != 0
        && has_room(global.cells.len())
        && cell_fits(cell, names, global.size)
        && is_clear(last_cell(&global.cells), cell)
}

pub(crate) fn add_to_global(
    global: ObjGlobal,
    names: usize,
    line: Record,
) -> Result<ObjGlobal, Stop>
    ensures { Stepped global_view result (global_step names (global_view global) line) }
{
    let Record::Cell(cell) = line else {
        return Err(Stop::Wrong);
    };
    if !takes_cell(&global, names, cell) {
        return Err(Stop::Wrong);
    }
    let mut global = global;
    global.cells.push(cell)?;
    Ok(global)
}

/// Whether a bit of the flags is set.
pub(crate) fn has_bit(flags: u8, mask: u8) -> bool
    requires { (mask ≡ 1) ⊎ (mask ≡ 2) }
    ensures first { mask ≡ 1 → result ≡ bit 0 flags }
    ensures second { mask ≡ 2 → result ≡ bit 1 flags }
{
    flags / mask % 2 == 1
}

fn no_body(alloc: Global) -> Body
    ensures { body_view result ≡ no_body }
{
    Body {
        code: Vec::new(alloc),
        rows: Vec::new(alloc),
        lines: Vec::new(alloc),
    }
}

fn begin_plain(alloc: Global, func: ObjFunc) -> Result<ObjFunc, Stop>
    ensures { Stepped func_view result (func_step 0 0 (func_view func) kind.Plain) }
{
    if !has_bit(func.flags, 1) || func.plain.is_some() {
        return Err(Stop::Wrong);
    }
    let mut func = func;
    func.plain = Some(no_body(alloc));
    Ok(func)
}

fn begin_safe(alloc: Global, func: ObjFunc) -> Result<ObjFunc, Stop>
    ensures { Stepped func_view result (func_step 0 0 (func_view func) kind.Safe) }
{
    if !has_bit(func.flags, 2) || func.plain.is_none() || func.safe.is_some() {
        return Err(Stop::Wrong);
    }
    let mut func = func;
    func.safe = Some(no_body(alloc));
    Ok(func)
}

/// Adds a line to the body that began last.
fn add_in_body(func: ObjFunc, version: u32, names: usize, line: Record) -> Result<ObjFunc, Stop>
    ensures { Stepped func_view result (in_body version names (func_view func) (option_map body_view func.plain) (option_map body_view func.safe) line) }
{
    let ObjFunc {
        symbol,
        ty,
        linkage,
        flags,
        text,
        frame,
        plain,
        safe,
    } = func;
    match safe {
        Some(body) => {
            let body = add_to_body(body, version, names, line)?;
            Ok(ObjFunc {
                symbol,
                ty,
                linkage,
                flags,
                text,
                frame,
                plain,
                safe: Some(body),
            })
        }
        None => match plain {
            Some(body) => {
                let body = add_to_body(body, version, names, line)?;
                Ok(ObjFunc {
                    symbol,
                    ty,
                    linkage,
                    flags,
                    text,
                    frame,
                    plain: Some(body),
                    safe: None,
                })
            }
            None => Err(Stop::Wrong),
        },
    }
}

pub(crate) fn add_to_func(
    alloc: Global,
    func: ObjFunc,
    version: u32,
    names: usize,
    line: Record,
) -> Result<ObjFunc, Stop>
    ensures { Stepped func_view result (func_step version names (func_view func) line) }
{
    match line {
        Record::Plain => begin_plain(alloc, func),
        Record::Safe => begin_safe(alloc, func),
        _ => add_in_body(func, version, names, line),
    }
}

/// Whether each body has begun that the flags say is there.
pub(crate) fn has_bodies(func: &ObjFunc) -> bool
    ensures { result ≡ has_bodies (func_view func.now) }
{
    has_bit(func.flags, 1) == func.plain.is_some() && has_bit(func.flags, 2) == func.safe.is_some()
}

/// Whether the next line may be an instruction.
pub(crate) fn func_takes_code(func: &ObjFunc) -> bool
    ensures { result ≡ func_takes_code (option_map body_view func.now.plain) (option_map body_view func.now.safe) }
{
    match &func.safe {
        Some(body) => takes_code(body),
        None => match &func.plain {
            Some(body) => takes_code(body),
            None => false,
        },
    }
}

//! Writing.
ghost use Rattle.std.specs.Prelude.{◌≡◌, ◌<◌, ◌^◌, ◌++◌, ◌∷◌, [], true, length, map, OnOk, IfOk, IfSome};
ghost use Rattle.std.specs.List.{list_all};
ghost use Rattle.std.specs.Option.{option_map, option_map_or};
ghost use Rattle.tx_code.specs.Objects.{bytes_of, body_view, class_view, global_view, func_view, object_view};
ghost use Rattle.tx_code.specs.WellFormed.{is_count, is_length, source_fits, body_fits, some_fits, class_fits, global_fits, func_fits, IsObject};
ghost use Rattle.object_bytes.specs.Counts.{HasCounts, class_has_counts, global_has_counts, func_has_counts};
ghost use Rattle.object_bytes.specs.Spelling.{u32_bytes, u64_bytes, list_bytes, name_bytes, instr_bytes, row_bytes, line_bytes, lines_bytes, body_bytes, some_bytes, member_bytes, class_bytes, cell_bytes, global_bytes, func_bytes, source_bytes, source_number, number_of, object_bytes};

use std::alloc::{AllocError, Global};
use tx_code::{
    Body, Instr, LineRow, ObjCell, ObjClass, ObjFunc, ObjGlobal, ObjMember, Object, Row,
};

#[tactic(auto, unfolding(crate::specs::Spelling::u32_bytes))]
fn put_u32(out: &mut Vec<u8>, number: u32) -> Result<(), AllocError>
    ensures { OnOk result (out.new.items ≡ out.old.items ++ u32_bytes number) }
{
    out.extend_from_slice(&number.to_le_bytes())
}

#[tactic(auto, unfolding(crate::specs::Spelling::u64_bytes))]
fn put_u64(out: &mut Vec<u8>, number: u64) -> Result<(), AllocError>
    ensures { OnOk result (out.new.items ≡ out.old.items ++ u64_bytes number) }
{
    out.extend_from_slice(&number.to_le_bytes())
}

fn put_count(out: &mut Vec<u8>, count: usize) -> Result<(), AllocError>
    requires { count < 2 ^ 32 }
    ensures { OnOk result (out.new.items ≡ out.old.items ++ u32_bytes count) }
{
    put_u32(out, count as u32)
}

/// An op byte alone.
fn put_op(out: &mut Vec<u8>, op: u8) -> Result<(), AllocError>
    ensures { OnOk result (out.new.items ≡ out.old.items ++ op ∷ []) }
{
    Ok(out.push(op)?)
}

fn put_op_byte(out: &mut Vec<u8>, op: u8, byte: u8) -> Result<(), AllocError>
    ensures { OnOk result (out.new.items ≡ out.old.items ++ op ∷ byte ∷ []) }
{
    out.push(op)?;
    Ok(out.push(byte)?)
}

fn put_op_bytes(out: &mut Vec<u8>, op: u8, first: u8, second: u8) -> Result<(), AllocError>
    ensures { OnOk result (out.new.items ≡ out.old.items ++ op ∷ first ∷ second ∷ []) }
{
    out.push(op)?;
    out.push(first)?;
    Ok(out.push(second)?)
}

fn put_op_u32(out: &mut Vec<u8>, op: u8, number: u32) -> Result<(), AllocError>
    ensures { OnOk result (out.new.items ≡ out.old.items ++ op ∷ u32_bytes number) }
{
    out.push(op)?;
    put_u32(out, number)
}

fn put_op_u64(out: &mut Vec<u8>, op: u8, number: u64) -> Result<(), AllocError>
    ensures { OnOk result (out.new.items ≡ out.old.items ++ op ∷ u64_bytes number) }
{
    out.push(op)?;
    put_u64(out, number)
}

fn put_call(out: &mut Vec<u8>, op: u8, callee: u32, words: u8) -> Result<(), AllocError>
    ensures { OnOk result (out.new.items ≡ out.old.items ++ op ∷ u32_bytes callee ++ words ∷ []) }
{
    out.push(op)?;
    put_u32(out, callee)?;
    Ok(out.push(words)?)
}

fn put_slot(out: &mut Vec<u8>, class: u32, slot: u32) -> Result<(), AllocError>
    ensures { OnOk result (out.new.items ≡ out.old.items ++ 23 ∷ u32_bytes class ++ u32_bytes slot) }
{
    out.push(23)?;
    put_u32(out, class)?;
    put_u32(out, slot)
}

#[tactic(auto, unfolding(crate::specs::Spelling::instr_bytes))]
fn put_instr(out: &mut Vec<u8>, instr: Instr) -> Result<(), AllocError>
    ensures { OnOk result (out.new.items ≡ out.old.items ++ instr_bytes instr) }
{
    match instr {
        Instr::Push(value) => put_op_u64(out, 0x00, value),
        Instr::Dup => put_op(out, 0x01),
        Instr::Pop => put_op(out, 0x02),
        Instr::Swap => put_op(out, 0x03),
        Instr::FrameAddr(offset) => put_op_u32(out, 0x04, offset),
        Instr::GlobalAddr(symbol) => put_op_u32(out, 0x05, symbol),
        Instr::FuncAddr(symbol) => put_op_u32(out, 0x06, symbol),
        Instr::ClassAddr(symbol) => put_op_u32(out, 0x07, symbol),
        Instr::Load(kind) => put_op_byte(out, 0x08, kind),
        Instr::Store(kind) => put_op_byte(out, 0x09, kind),
        Instr::TLoad(kind) => put_op_byte(out, 0x0a, kind),
        Instr::TStore(kind) => put_op_byte(out, 0x0b, kind),
        Instr::VLoad(kind) => put_op_byte(out, 0x0c, kind),
        Instr::VStore(kind) => put_op_byte(out, 0x0d, kind),
        Instr::Bin { op, kind } => put_op_bytes(out, 0x0e, op, kind),
        Instr::Neg(kind) => put_op_byte(out, 0x0f, kind),
        Instr::Conv { from, to } => put_op_bytes(out, 0x10, from, to),
        Instr::Jump(target) => put_op_u32(out, 0x11, target),
        Instr::JumpZero(target) => put_op_u32(out, 0x12, target),
        Instr::Call { func, words } => put_call(out, 0x13, func, words),
        Instr::TCall { func, words } => put_call(out, 0x14, func, words),
        Instr::CallIndirect { ty, words } => put_call(out, 0x15, ty, words),
        Instr::TCallIndirect { ty, words } => put_call(out, 0x16, ty, words),
        Instr::Slot { class, slot } => put_slot(out, class, slot),
        Instr::Ret(words) => put_op_byte(out, 0x18, words),
        Instr::Begin(kind) => put_op_byte(out, 0x19, kind),
        Instr::End => put_op(out, 0x1a),
        Instr::BeginSync => put_op(out, 0x1b),
        Instr::EndSync => put_op(out, 0x1c),
        Instr::Out => put_op(out, 0x1d),
        Instr::Inp => put_op(out, 0x1e),
        Instr::Spawn => put_op(out, 0x1f),
        Instr::Join => put_op(out, 0x20),
        Instr::Abort => put_op(out, 0x21),
        Instr::NewException(ty) => put_op_u32(out, 0x22, ty),
        Instr::PutException { offset, kind } => put_op_bytes(out, 0x23, offset, kind),
        Instr::Throw => put_op(out, 0x24),
        Instr::Rethrow => put_op(out, 0x25),
        Instr::GetException { offset, kind } => put_op_bytes(out, 0x26, offset, kind),
        Instr::EndHandler => put_op(out, 0x27),
        Instr::Resume => put_op(out, 0x28),
        Instr::Over => put_op(out, 0x29),
    }
}

fn put_code(out: &mut Vec<u8>, code: &[Instr]) -> Result<(), AllocError>
    requires { is_count code.now ≡ true }
    ensures { OnOk result (out.new.items ≡ out.old.items ++ list_bytes instr_bytes code.now) }
{
    put_count(out, code.len())?;
    for instr in code {
        put_instr(out, *instr)?;
    }
    Ok(())
}

fn put_row(out: &mut Vec<u8>, row: &Row) -> Result<(), AllocError>
    ensures { OnOk result (out.new.items ≡ out.old.items ++ row_bytes row.now) }
{
    put_u32(out, row.from)?;
    put_u32(out, row.to)?;
    put_u32(out, row.target)?;
    out.push(row.what)?;
    put_u32(out, row.ty)?;
    put_u32(out, row.depth)
}

fn put_rows(out: &mut Vec<u8>, rows: &[Row]) -> Result<(), AllocError>
    requires { is_count rows.now ≡ true }
    ensures { OnOk result (out.new.items ≡ out.old.items ++ list_bytes row_bytes rows.now) }
{
    put_count(out, rows.len())?;
    for row in rows {
        put_row(out, row)?;
    }
    Ok(())
}

fn put_line(out: &mut Vec<u8>, line: &LineRow) -> Result<(), AllocError>
    ensures { OnOk result (out.new.items ≡ out.old.items ++ line_bytes line.now) }
{
    put_u32(out, line.from)?;
    put_u32(out, line.line)
}

fn put_lines(out: &mut Vec<u8>, lines: &[LineRow]) -> Result<(), AllocError>
    requires { is_count lines.now ≡ true }
    ensures { OnOk result (out.new.items ≡ out.old.items ++ list_bytes line_bytes lines.now) }
{
    put_count(out, lines.len())?;
    for line in lines {
        put_line(out, line)?;
    }
    Ok(())
}

fn put_line_rows(out: &mut Vec<u8>, version: u32, lines: &[LineRow]) -> Result<(), AllocError>
    requires { is_count lines.now ≡ true }
    ensures { OnOk result (out.new.items ≡ out.old.items ++ lines_bytes version lines.now) }
{
    if version == 2 {
        return put_lines(out, lines);
    }
    Ok(())
}

fn put_body(out: &mut Vec<u8>, version: u32, body: &Body) -> Result<(), AllocError>
    requires { HasCounts (body_view body.now) }
    ensures { OnOk result (out.new.items ≡ out.old.items ++ body_bytes version (body_view body.now)) }
{
    put_code(out, &body.code)?;
    put_rows(out, &body.rows)?;
    put_line_rows(out, version, &body.lines)
}

fn put_some(out: &mut Vec<u8>, version: u32, body: &Option<Body>) -> Result<(), AllocError>
    requires { IfSome body.now (λ b. HasCounts (body_view b)) }
    ensures { OnOk result (out.new.items ≡ out.old.items ++ some_bytes version (option_map body_view body.now)) }
{
    match body {
        None => Ok(()),
        Some(body) => put_body(out, version, body),
    }
}

fn put_member(out: &mut Vec<u8>, member: &ObjMember) -> Result<(), AllocError>
    ensures { OnOk result (out.new.items ≡ out.old.items ++ member_bytes member.now) }
{
    put_u32(out, member.name)?;
    put_u32(out, member.offset)?;
    put_u32(out, member.ty)
}

fn put_members(out: &mut Vec<u8>, members: &[ObjMember]) -> Result<(), AllocError>
    requires { is_count members.now ≡ true }
    ensures { OnOk result (out.new.items ≡ out.old.items ++ list_bytes member_bytes members.now) }
{
    put_count(out, members.len())?;
    for member in members {
        put_member(out, member)?;
    }
    Ok(())
}

fn put_slots(out: &mut Vec<u8>, slots: &[u32]) -> Result<(), AllocError>
    requires { is_count slots.now ≡ true }
    ensures { OnOk result (out.new.items ≡ out.old.items ++ list_bytes u32_bytes slots.now) }
{
    put_count(out, slots.len())?;
    for slot in slots {
        put_u32(out, *slot)?;
    }
    Ok(())
}

fn put_class(out: &mut Vec<u8>, class: &ObjClass) -> Result<(), AllocError>
    requires members { is_count class.now.members.items ≡ true }
    requires slots { is_count class.now.slots.items ≡ true }
    ensures { OnOk result (out.new.items ≡ out.old.items ++ class_bytes (class_view class.now)) }
{
    put_u32(out, class.name)?;
    put_u32(out, class.size)?;
    put_u32(out, class.align)?;
    put_u32(out, class.base)?;
    put_u32(out, class.pointer)?;
    put_u32(out, class.text)?;
    put_members(out, &class.members)?;
    put_slots(out, &class.slots)
}

fn put_classes(out: &mut Vec<u8>, classes: &[ObjClass]) -> Result<(), AllocError>
    requires count { is_count classes.now ≡ true }
    requires each { list_all class_has_counts (map class_view classes.now) ≡ true }
    ensures { OnOk result (out.new.items ≡ out.old.items ++ list_bytes class_bytes (map class_view classes.now)) }
{
    put_count(out, classes.len())?;
    for class in classes {
        put_class(out, class)?;
    }
    Ok(())
}

fn put_cell(out: &mut Vec<u8>, cell: &ObjCell) -> Result<(), AllocError>
    ensures { OnOk result (out.new.items ≡ out.old.items ++ cell_bytes cell.now) }
{
    put_u32(out, cell.offset)?;
    out.push(cell.size)?;
    out.push(cell.what)?;
    put_u64(out, cell.value)?;
    put_u32(out, cell.symbol)
}

fn put_cells(out: &mut Vec<u8>, cells: &[ObjCell]) -> Result<(), AllocError>
    requires { is_count cells.now ≡ true }
    ensures { OnOk result (out.new.items ≡ out.old.items ++ list_bytes cell_bytes cells.now) }
{
    put_count(out, cells.len())?;
    for cell in cells {
        put_cell(out, cell)?;
    }
    Ok(())
}

fn put_global(out: &mut Vec<u8>, global: &ObjGlobal) -> Result<(), AllocError>
    requires { is_count global.now.cells.items ≡ true }
    ensures { OnOk result (out.new.items ≡ out.old.items ++ global_bytes (global_view global.now)) }
{
    put_u32(out, global.symbol)?;
    put_u32(out, global.ty)?;
    out.push(global.linkage)?;
    out.push(global.defined)?;
    put_u32(out, global.size)?;
    put_cells(out, &global.cells)
}

fn put_globals(out: &mut Vec<u8>, globals: &[ObjGlobal]) -> Result<(), AllocError>
    requires count { is_count globals.now ≡ true }
    requires each { list_all global_has_counts (map global_view globals.now) ≡ true }
    ensures { OnOk result (out.new.items ≡ out.old.items ++ list_bytes global_bytes (map global_view globals.now)) }
{
    put_count(out, globals.len())?;
    for global in globals {
        put_global(out, global)?;
    }
    Ok(())
}

fn put_func(out: &mut Vec<u8>, version: u32, func: &ObjFunc) -> Result<(), AllocError>
    requires plain { IfSome func.now.plain (λ b. HasCounts (body_view b)) }
    requires safe { IfSome func.now.safe (λ b. HasCounts (body_view b)) }
    ensures { OnOk result (out.new.items ≡ out.old.items ++ func_bytes version (func_view func.now)) }
{
    put_u32(out, func.symbol)?;
    put_u32(out, func.ty)?;
    out.push(func.linkage)?;
    out.push(func.flags)?;
    put_u32(out, func.text)?;
    put_u32(out, func.frame)?;
    put_some(out, version, &func.plain)?;
    put_some(out, version, &func.safe)
}

fn put_funcs(out: &mut Vec<u8>, version: u32, funcs: &[ObjFunc]) -> Result<(), AllocError>
    requires count { is_count funcs.now ≡ true }
    requires each { list_all func_has_counts (map func_view funcs.now) ≡ true }
    ensures { OnOk result (out.new.items ≡ out.old.items ++ list_bytes (func_bytes version) (map func_view funcs.now)) }
{
    put_count(out, funcs.len())?;
    for func in funcs {
        put_func(out, version, func)?;
    }
    Ok(())
}

fn put_name(out: &mut Vec<u8>, name: &[u8]) -> Result<(), AllocError>
    requires { length name.now < 2 ^ 32 }
    ensures { OnOk result (out.new.items ≡ out.old.items ++ name_bytes name.now) }
{
    put_count(out, name.len())?;
    out.extend_from_slice(name)
}

fn put_names(out: &mut Vec<u8>, names: &[Vec<u8>]) -> Result<(), AllocError>
    requires count { is_count names.now ≡ true }
    requires each { list_all is_length (map bytes_of names.now) ≡ true }
    ensures { OnOk result (out.new.items ≡ out.old.items ++ list_bytes name_bytes (map bytes_of names.now)) }
{
    put_count(out, names.len())?;
    for name in names {
        put_name(out, name)?;
    }
    Ok(())
}

/// The number of a name plus 1.
pub fn number_of(names: &[Vec<u8>], name: &[u8]) -> usize
    ensures { result ≡ number_of 1 (map bytes_of names.now) name.now }
{
    let mut number = 1;
    for other in names {
        if name == other.as_slice() {
            return number;
        }
        number += 1;
    }
    number
}

fn put_source(
    out: &mut Vec<u8>,
    version: u32,
    names: &[Vec<u8>],
    source: &Option<Vec<u8>>,
) -> Result<(), AllocError>
    requires count { is_count (map bytes_of names.now) ≡ true }
    requires named { source_fits version (map bytes_of names.now) (option_map bytes_of source.now) ≡ true }
    ensures { OnOk result (out.new.items ≡ out.old.items ++ source_bytes version (map bytes_of names.now) (option_map bytes_of source.now)) }
{
    if version != 2 {
        return Ok(());
    }
    match source {
        None => put_u32(out, 0),
        Some(source) => put_count(out, number_of(names, source)),
    }
}

/// The one spelling of an object.
#[tactic(auto, unfolding(crate::specs::Spelling::object_bytes))]
pub fn write(alloc: Global, object: &Object) -> Result<Vec<u8>, AllocError>
    requires { IsObject (object_view object.now) }
    ensures { IfOk result (λ v. v.items ≡ object_bytes (object_view object.now)) }
{
    let mut out = Vec::new(alloc);
    out.extend_from_slice(b"TXOB")?;
    put_u32(&mut out, object.version)?;
    put_names(&mut out, &object.names)?;
    put_source(&mut out, object.version, &object.names, &object.source)?;
    put_classes(&mut out, &object.classes)?;
    put_globals(&mut out, &object.globals)?;
    put_funcs(&mut out, object.version, &object.funcs)?;
    Ok(out)
}

//! Printing: the text of an object.
ghost use Rattle.std.specs.Prelude.{◌≡◌, ◌<◌, ◌++◌, ◌∷◌, [], map, OnOk, IfOk};
ghost use Rattle.std.specs.List.{flat_map};
ghost use Rattle.std.specs.Option.{option_map};
ghost use Rattle.tx_code.specs.Objects.{bytes_of, body_view, class_view, global_view, func_view, object_view};
ghost use Rattle.object_bytes.specs.Spelling.{source_number};
ghost use Rattle.assembly_text.specs.declared.line.Record.TheVariants as kind;
ghost use Rattle.assembly_text.specs.Words.{number_text, words_text};
ghost use Rattle.assembly_text.specs.Lines.{Name, Of, byte_text, name_text, line_text, code_words, code_line, row_words, row_line, number_line, words_of, body_lines, some_lines, class_words, class_lines, global_words, global_lines, func_words, func_lines, source_lines, text_of, is_plain, hex};

use itoa::Buffer;
use object_bytes::number_of;
use std::alloc::{AllocError, Global};
use tx_code::{
    Body, Instr, LineRow, ObjCell, ObjClass, ObjFunc, ObjGlobal, ObjMember, Object, Row,
};

/// A space, and the number in decimal.
fn put_number(out: &mut Vec<u8>, number: u64) -> Result<(), AllocError>
    ensures { OnOk result (out.new.items ≡ out.old.items ++ number_text number) }
{
    let mut buffer = Buffer::new();
    out.push(b' ')?;
    out.extend_from_slice(buffer.format(number).as_bytes())
}

fn put_numbers(out: &mut Vec<u8>, numbers: &[u64]) -> Result<(), AllocError>
    ensures { OnOk result (out.new.items ≡ out.old.items ++ flat_map number_text numbers.now) }
{
    for number in numbers {
        put_number(out, *number)?;
    }
    Ok(())
}

/// A line of a word and numbers.
fn put_words(out: &mut Vec<u8>, word: &[u8], numbers: &[u64]) -> Result<(), AllocError>
    ensures { OnOk result (out.new.items ≡ out.old.items ++ (word.now ++ (flat_map number_text numbers.now ++ 10 ∷ []))) }
{
    out.extend_from_slice(word)?;
    put_numbers(out, numbers)?;
    Ok(out.push(b'\n')?)
}

/// An instruction.
fn put_instr(out: &mut Vec<u8>, instr: Instr) -> Result<(), AllocError>
    ensures { OnOk result (out.new.items ≡ out.old.items ++ words_text (code_words instr)) }
{
    match instr {
        Instr::Push(value) => put_words(out, b"push", &[value]),
        Instr::Dup => put_words(out, b"dup", &[]),
        Instr::Pop => put_words(out, b"drop", &[]),
        Instr::Swap => put_words(out, b"swap", &[]),
        Instr::FrameAddr(offset) => put_words(out, b"frame", &[u64::from(offset)]),
        Instr::GlobalAddr(symbol) => put_words(out, b"global", &[u64::from(symbol)]),
        Instr::FuncAddr(symbol) => put_words(out, b"func", &[u64::from(symbol)]),
        Instr::ClassAddr(symbol) => put_words(out, b"class", &[u64::from(symbol)]),
        Instr::Load(kind) => put_words(out, b"load", &[u64::from(kind)]),
        Instr::Store(kind) => put_words(out, b"store", &[u64::from(kind)]),
        Instr::TLoad(kind) => put_words(out, b"tload", &[u64::from(kind)]),
        Instr::TStore(kind) => put_words(out, b"tstore", &[u64::from(kind)]),
        Instr::VLoad(kind) => put_words(out, b"vload", &[u64::from(kind)]),
        Instr::VStore(kind) => put_words(out, b"vstore", &[u64::from(kind)]),
        Instr::Bin { op, kind } => { put_words(out, b"bin", &[u64::from(op), u64::from(kind)]) }
        Instr::Neg(kind) => put_words(out, b"neg", &[u64::from(kind)]),
        Instr::Conv { from, to } => { put_words(out, b"conv", &[u64::from(from), u64::from(to)]) }
        Instr::Jump(target) => put_words(out, b"jump", &[u64::from(target)]),
        Instr::JumpZero(target) => put_words(out, b"jzero", &[u64::from(target)]),
        Instr::Call { func, words } => {
            put_words(out, b"call", &[u64::from(func), u64::from(words)])
        }
        Instr::TCall { func, words } => {
            put_words(out, b"tcall", &[u64::from(func), u64::from(words)])
        }
        Instr::CallIndirect { ty, words } => {
            put_words(out, b"calli", &[u64::from(ty), u64::from(words)])
        }
        Instr::TCallIndirect { ty, words } => {
            put_words(out, b"tcalli", &[u64::from(ty), u64::from(words)])
        }
        Instr::Slot { class, slot } => {
            put_words(out, b"slot", &[u64::from(class), u64::from(slot)])
        }
        Instr::Ret(words) => put_words(out, b"ret", &[u64::from(words)]),
        Instr::Begin(kind) => put_words(out, b"begin", &[u64::from(kind)]),
        Instr::End => put_words(out, b"end", &[]),
        Instr::BeginSync => put_words(out, b"bsync", &[]),
        Instr::EndSync => put_words(out, b"esync", &[]),
        Instr::Out => put_words(out, b"out", &[]),
        Instr::Inp => put_words(out, b"inp", &[]),
        Instr::Spawn => put_words(out, b"spawn", &[]),
        Instr::Join => put_words(out, b"join", &[]),
        Instr::Abort => put_words(out, b"abort", &[]),
        Instr::NewException(ty) => put_words(out, b"xnew", &[u64::from(ty)]),
        Instr::PutException { offset, kind } => {
            put_words(out, b"xput", &[u64::from(offset), u64::from(kind)])
        }
        Instr::Throw => put_words(out, b"throw", &[]),
        Instr::Rethrow => put_words(out, b"rethrow", &[]),
        Instr::GetException { offset, kind } => {
            put_words(out, b"xget", &[u64::from(offset), u64::from(kind)])
        }
        Instr::EndHandler => put_words(out, b"xdone", &[]),
        Instr::Resume => put_words(out, b"resume", &[]),
        Instr::Over => put_words(out, b"over", &[]),
    }
}

fn put_code(out: &mut Vec<u8>, code: &[Instr]) -> Result<(), AllocError>
    ensures { OnOk result (out.new.items ≡ out.old.items ++ flat_map line_text (map code_line code.now)) }
{
    for instr in code {
        put_instr(out, *instr)?;
    }
    Ok(())
}

fn put_row(out: &mut Vec<u8>, row: &Row) -> Result<(), AllocError>
    ensures { OnOk result (out.new.items ≡ out.old.items ++ words_text (row_words row.now)) }
{
    let numbers = [
        u64::from(row.from),
        u64::from(row.to),
        u64::from(row.target),
        u64::from(row.what),
        u64::from(row.ty),
        u64::from(row.depth),
    ];
    put_words(out, b"row", &numbers)
}

fn put_rows(out: &mut Vec<u8>, rows: &[Row]) -> Result<(), AllocError>
    ensures { OnOk result (out.new.items ≡ out.old.items ++ flat_map line_text (map row_line rows.now)) }
{
    for row in rows {
        put_row(out, row)?;
    }
    Ok(())
}

fn put_line(out: &mut Vec<u8>, line: &LineRow) -> Result<(), AllocError>
    ensures { OnOk result (out.new.items ≡ out.old.items ++ words_text (words_of (kind.Line line.now))) }
{
    put_words(out, b"line", &[u64::from(line.from), u64::from(line.line)])
}

fn put_lines(out: &mut Vec<u8>, lines: &[LineRow]) -> Result<(), AllocError>
    ensures { OnOk result (out.new.items ≡ out.old.items ++ flat_map line_text (map number_line lines.now)) }
{
    for line in lines {
        put_line(out, line)?;
    }
    Ok(())
}

fn put_body(out: &mut Vec<u8>, body: &Body) -> Result<(), AllocError>
    ensures { OnOk result (out.new.items ≡ out.old.items ++ flat_map line_text (body_lines (body_view body.now))) }
{
    put_code(out, &body.code)?;
    put_rows(out, &body.rows)?;
    put_lines(out, &body.lines)
}

fn put_plain(out: &mut Vec<u8>, body: &Option<Body>) -> Result<(), AllocError>
    ensures { OnOk result (out.new.items ≡ out.old.items ++ flat_map line_text (some_lines kind.Plain (option_map body_view body.now))) }
{
    match body {
        None => Ok(()),
        Some(body) => {
            put_words(out, b"plain", &[])?;
            put_body(out, body)
        }
    }
}

fn put_safe(out: &mut Vec<u8>, body: &Option<Body>) -> Result<(), AllocError>
    ensures { OnOk result (out.new.items ≡ out.old.items ++ flat_map line_text (some_lines kind.Safe (option_map body_view body.now))) }
{
    match body {
        None => Ok(()),
        Some(body) => {
            put_words(out, b"safe", &[])?;
            put_body(out, body)
        }
    }
}

fn put_member(out: &mut Vec<u8>, member: &ObjMember) -> Result<(), AllocError>
    ensures { OnOk result (out.new.items ≡ out.old.items ++ words_text (words_of (kind.Member member.now))) }
{
    let numbers = [
        u64::from(member.name),
        u64::from(member.offset),
        u64::from(member.ty),
    ];
    put_words(out, b"member", &numbers)
}

fn put_members(out: &mut Vec<u8>, members: &[ObjMember]) -> Result<(), AllocError>
    ensures { OnOk result (out.new.items ≡ out.old.items ++ flat_map line_text (map (λ m. Of (kind.Member m)) members.now)) }
{
    for member in members {
        put_member(out, member)?;
    }
    Ok(())
}

fn put_slots(out: &mut Vec<u8>, slots: &[u32]) -> Result<(), AllocError>
    ensures { OnOk result (out.new.items ≡ out.old.items ++ flat_map line_text (map (λ s. Of (kind.Slot s)) slots.now)) }
{
    for slot in slots {
        put_words(out, b"slot", &[u64::from(*slot)])?;
    }
    Ok(())
}

fn put_class_head(out: &mut Vec<u8>, class: &ObjClass) -> Result<(), AllocError>
    ensures { OnOk result (out.new.items ≡ out.old.items ++ words_text (class_words (record { name = class.now.name; size = class.now.size; align = class.now.align; base = class.now.base; pointer = class.now.pointer; text = class.now.text }))) }
{
    let numbers = [
        u64::from(class.name),
        u64::from(class.size),
        u64::from(class.align),
        u64::from(class.base),
        u64::from(class.pointer),
        u64::from(class.text),
    ];
    put_words(out, b"class", &numbers)
}

fn put_class(out: &mut Vec<u8>, class: &ObjClass) -> Result<(), AllocError>
    ensures { OnOk result (out.new.items ≡ out.old.items ++ flat_map line_text (class_lines (class_view class.now))) }
{
    put_class_head(out, class)?;
    put_members(out, &class.members)?;
    put_slots(out, &class.slots)
}

fn put_classes(out: &mut Vec<u8>, classes: &[ObjClass]) -> Result<(), AllocError>
    ensures { OnOk result (out.new.items ≡ out.old.items ++ flat_map line_text (flat_map class_lines (map class_view classes.now))) }
{
    for class in classes {
        put_class(out, class)?;
    }
    Ok(())
}

fn put_cell(out: &mut Vec<u8>, cell: &ObjCell) -> Result<(), AllocError>
    ensures { OnOk result (out.new.items ≡ out.old.items ++ words_text (words_of (kind.Cell cell.now))) }
{
    let numbers = [
        u64::from(cell.offset),
        u64::from(cell.size),
        u64::from(cell.what),
        cell.value,
        u64::from(cell.symbol),
    ];
    put_words(out, b"cell", &numbers)
}

fn put_cells(out: &mut Vec<u8>, cells: &[ObjCell]) -> Result<(), AllocError>
    ensures { OnOk result (out.new.items ≡ out.old.items ++ flat_map line_text (map (λ c. Of (kind.Cell c)) cells.now)) }
{
    for cell in cells {
        put_cell(out, cell)?;
    }
    Ok(())
}

fn put_global_head(out: &mut Vec<u8>, global: &ObjGlobal) -> Result<(), AllocError>
    ensures { OnOk result (out.new.items ≡ out.old.items ++ words_text (global_words (record { symbol = global.now.symbol; ty = global.now.ty; linkage = global.now.linkage; defined = global.now.defined; size = global.now.size }))) }
{
    let numbers = [
        u64::from(global.symbol),
        u64::from(global.ty),
        u64::from(global.linkage),
        u64::from(global.defined),
        u64::from(global.size),
    ];
    put_words(out, b"global", &numbers)
}

fn put_global(out: &mut Vec<u8>, global: &ObjGlobal) -> Result<(), AllocError>
    ensures { OnOk result (out.new.items ≡ out.old.items ++ flat_map line_text (global_lines (global_view global.now))) }
{
    put_global_head(out, global)?;
    put_cells(out, &global.cells)
}

fn put_globals(out: &mut Vec<u8>, globals: &[ObjGlobal]) -> Result<(), AllocError>
    ensures { OnOk result (out.new.items ≡ out.old.items ++ flat_map line_text (flat_map global_lines (map global_view globals.now))) }
{
    for global in globals {
        put_global(out, global)?;
    }
    Ok(())
}

fn put_func_head(out: &mut Vec<u8>, func: &ObjFunc) -> Result<(), AllocError>
    ensures { OnOk result (out.new.items ≡ out.old.items ++ words_text (func_words (record { symbol = func.now.symbol; ty = func.now.ty; linkage = func.now.linkage; flags = func.now.flags; text = func.now.text; frame = func.now.frame }))) }
{
    let numbers = [
        u64::from(func.symbol),
        u64::from(func.ty),
        u64::from(func.linkage),
        u64::from(func.flags),
        u64::from(func.text),
        u64::from(func.frame),
    ];
    put_words(out, b"func", &numbers)
}

fn put_func(out: &mut Vec<u8>, func: &ObjFunc) -> Result<(), AllocError>
    ensures { OnOk result (out.new.items ≡ out.old.items ++ flat_map line_text (func_lines (func_view func.now))) }
{
    put_func_head(out, func)?;
    put_plain(out, &func.plain)?;
    put_safe(out, &func.safe)
}

fn put_funcs(out: &mut Vec<u8>, funcs: &[ObjFunc]) -> Result<(), AllocError>
    ensures { OnOk result (out.new.items ≡ out.old.items ++ flat_map line_text (flat_map func_lines (map func_view funcs.now))) }
{
    for func in funcs {
        put_func(out, func)?;
    }
    Ok(())
}

/// A hexadecimal digit in lower case.
fn hex(digit: u8) -> u8
    requires { digit < 16 }
    ensures { result ≡ hex digit }
{
    if digit < 10 {
        b'0' + digit
    } else {
        b'a' + (digit - 10)
    }
}

/// Whether a byte stands in a name as it is.
fn stands_plain(byte: u8) -> bool
    ensures { result ≡ is_plain byte }
{
    32 <= byte && byte <= 126 && byte != b'"' && byte != b'\\'
}

/// A byte of a name.
fn put_byte(out: &mut Vec<u8>, byte: u8) -> Result<(), AllocError>
    ensures { OnOk result (out.new.items ≡ out.old.items ++ byte_text byte) }
{
    if stands_plain(byte) {
        return Ok(out.push(byte)?);
    }
    out.push(b'\\')?;
    out.push(b'x')?;
    out.push(hex(byte / 16))?;
    Ok(out.push(hex(byte % 16))?)
}

fn put_bytes(out: &mut Vec<u8>, bytes: &[u8]) -> Result<(), AllocError>
    ensures { OnOk result (out.new.items ≡ out.old.items ++ flat_map byte_text bytes.now) }
{
    for byte in bytes {
        put_byte(out, *byte)?;
    }
    Ok(())
}

fn put_name(out: &mut Vec<u8>, name: &[u8]) -> Result<(), AllocError>
    ensures { OnOk result (out.new.items ≡ out.old.items ++ name_text name.now) }
{
    out.extend_from_slice(b"name \"")?;
    put_bytes(out, name)?;
    out.extend_from_slice(b"\"\n")
}

fn put_names(out: &mut Vec<u8>, names: &[Vec<u8>]) -> Result<(), AllocError>
    ensures { OnOk result (out.new.items ≡ out.old.items ++ flat_map line_text (map Name (map bytes_of names.now))) }
{
    for name in names {
        put_name(out, name)?;
    }
    Ok(())
}

fn source_number(names: &[Vec<u8>], source: &Option<Vec<u8>>) -> usize
    ensures { result ≡ source_number (map bytes_of names.now) (option_map bytes_of source.now) }
{
    match source {
        None => 0,
        Some(source) => number_of(names, source),
    }
}

fn put_source(
    out: &mut Vec<u8>,
    version: u32,
    names: &[Vec<u8>],
    source: &Option<Vec<u8>>,
) -> Result<(), AllocError>
    ensures { OnOk result (out.new.items ≡ out.old.items ++ flat_map line_text (source_lines version (map bytes_of names.now) (option_map bytes_of source.now))) }
{
    if version != 2 {
        return Ok(());
    }
    put_words(out, b"source", &[source_number(names, source) as u64])
}

/// The first line.
fn put_version(out: &mut Vec<u8>, version: u32) -> Result<(), AllocError>
    ensures { OnOk result (out.new.items ≡ out.old.items ++ words_text (words_of (kind.Txob version))) }
{
    put_words(out, b"txob", &[u64::from(version)])
}

/// The text of an object.
#[tactic(auto, unfolding(crate::specs::Lines::text_of))]
pub fn print(alloc: Global, object: &Object) -> Result<Vec<u8>, AllocError>
    ensures { IfOk result (λ text. text.items ≡ text_of (object_view object.now)) }
{
    let mut out = Vec::new(alloc);
    put_version(&mut out, object.version)?;
    put_names(&mut out, &object.names)?;
    put_source(&mut out, object.version, &object.names, &object.source)?;
    put_classes(&mut out, &object.classes)?;
    put_globals(&mut out, &object.globals)?;
    put_funcs(&mut out, &object.funcs)?;
    put_words(&mut out, b"end", &[])?;
    Ok(out)
}

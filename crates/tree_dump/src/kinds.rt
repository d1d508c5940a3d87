// Nodes by their kinds.

use crate::sizes::Ordered;
use crate::texts::{put, put_if, put_name, put_number, put_type, put_word, type_of_class};
use cpp_tree::below::{BinOp, BlockKind, IntKind};
use cpp_tree::{Builtin, TFunc, TGlobal, TKind};
use std::alloc::{AllocError, Global};

/// What nodes name by numbers.
#[derive(Clone, Copy)]
pub struct Named<'a> {
    pub funcs: &'a [TFunc],
    pub globals: &'a [TGlobal],
    pub classes: Ordered<'a>,
}

/// The name of a kind of integers.
pub fn kind_name(kind: IntKind) -> &'static [u8] {
    match kind {
        IntKind::Bool => b"Bool",
        IntKind::Char => b"Char",
        IntKind::SChar => b"SChar",
        IntKind::UChar => b"UChar",
        IntKind::Short => b"Short",
        IntKind::UShort => b"UShort",
        IntKind::Int => b"Int",
        IntKind::UInt => b"UInt",
        IntKind::Long => b"Long",
        IntKind::ULong => b"ULong",
        IntKind::LLong => b"LLong",
        IntKind::ULLong => b"ULLong",
    }
}

fn operator_name(op: BinOp) -> &'static [u8] {
    match op {
        BinOp::Add => b"Add",
        BinOp::Sub => b"Sub",
        BinOp::Mul => b"Mul",
        BinOp::Div => b"Div",
        BinOp::Rem => b"Rem",
        BinOp::Shl => b"Shl",
        BinOp::Shr => b"Shr",
        BinOp::And => b"And",
        BinOp::Xor => b"Xor",
        BinOp::Or => b"Or",
        BinOp::Lt => b"Lt",
        BinOp::Gt => b"Gt",
        BinOp::Le => b"Le",
        BinOp::Ge => b"Ge",
        BinOp::Eq => b"Eq",
        BinOp::Ne => b"Ne",
    }
}

fn builtin_name(which: Builtin) -> &'static [u8] {
    match which {
        Builtin::PutChar => b"PutChar",
        Builtin::GetChar => b"GetChar",
        Builtin::Spawn => b"Spawn",
        Builtin::Join => b"Join",
        Builtin::Abort => b"Abort",
    }
}

fn block_name(kind: BlockKind) -> &'static [u8] {
    match kind {
        BlockKind::NoExcept => b"NoExcept",
        BlockKind::Cancel => b"Cancel",
        BlockKind::Commit => b"Commit",
    }
}

fn put_kind(out: &mut Vec<u8>, kind: IntKind) -> Result<(), AllocError> {
    put_name(out, kind_name(kind))
}

fn put_symbol(out: &mut Vec<u8>, named: Named<'_>, func: u32) -> Result<(), AllocError> {
    match named.funcs.get(func as usize) {
        Some(found) => put_name(out, &found.symbol),
        None => put(out, b" ?"),
    }
}

fn put_global(out: &mut Vec<u8>, named: Named<'_>, global: u32) -> Result<(), AllocError> {
    match named.globals.get(global as usize) {
        Some(found) => put_name(out, &found.symbol),
        None => put(out, b" ?"),
    }
}

fn put_class(
    alloc: Global,
    out: &mut Vec<u8>,
    named: Named<'_>,
    class: u32,
) -> Result<(), AllocError> {
    put(out, b" ")?;
    put_type(
        alloc,
        out,
        &type_of_class(named.classes.list, class),
        named.classes.list,
    )
}

fn put_word_kind(
    out: &mut Vec<u8>,
    name: &[u8],
    kind: IntKind,
    volatile: bool,
) -> Result<(), AllocError> {
    put(out, name)?;
    put_kind(out, kind)?;
    put_if(out, volatile, b" volatile")
}

// A node that names a function.
fn put_call(out: &mut Vec<u8>, name: &[u8], named: Named<'_>, func: u32) -> Result<(), AllocError> {
    put(out, name)?;
    put_symbol(out, named, func)
}

// A node with one number.
fn put_numbered(out: &mut Vec<u8>, name: &[u8], number: u64) -> Result<(), AllocError> {
    put(out, name)?;
    put_word(out, number)
}

// A node with two numbers.
fn put_two(out: &mut Vec<u8>, name: &[u8], first: u32, second: u32) -> Result<(), AllocError> {
    put_numbered(out, name, u64::from(first))?;
    put_word(out, u64::from(second))
}

// A node with a word where a flag is set.
fn put_flagged(out: &mut Vec<u8>, name: &[u8], flag: bool, word: &[u8]) -> Result<(), AllocError> {
    put(out, name)?;
    if flag {
        put_name(out, word)?;
    }
    Ok(())
}

// An expression that reads or writes.
fn put_access(
    alloc: Global,
    out: &mut Vec<u8>,
    named: Named<'_>,
    kind: TKind,
) -> Result<(), AllocError> {
    match kind {
        TKind::Literal { word } => put_numbered(out, b"Literal", word),
        TKind::Local { place } => put_numbered(out, b"Local", u64::from(place)),
        TKind::Global { global } => {
            put(out, b"Global")?;
            put_global(out, named, global)
        }
        TKind::Function { func } => put_call(out, b"Function", named, func),
        TKind::ClassTable { class } => {
            put(out, b"ClassTable")?;
            put_class(alloc, out, named, class)
        }
        TKind::Load { kind, volatile } => put_word_kind(out, b"Load", kind, volatile),
        TKind::Convert { to } => put_word_kind(out, b"Convert", to, false),
        TKind::Retype => put(out, b"Retype"),
        TKind::Binary { op, kind } => {
            put(out, b"Binary")?;
            put_name(out, operator_name(op))?;
            put_kind(out, kind)
        }
        TKind::Assign { kind, volatile } => put_word_kind(out, b"Assign", kind, volatile),
        TKind::Update {
            op,
            stored,
            operation,
            volatile,
            old,
        } => {
            put(out, b"Update")?;
            put_name(out, operator_name(op))?;
            put_kind(out, stored)?;
            put_word_kind(out, b"", operation, volatile)?;
            put_if(out, old, b" old")
        }
        _ => put_form(alloc, out, named, kind),
    }
}

// Another expression.
fn put_form(
    alloc: Global,
    out: &mut Vec<u8>,
    named: Named<'_>,
    kind: TKind,
) -> Result<(), AllocError> {
    match kind {
        TKind::Conditional => put(out, b"Conditional"),
        TKind::Comma => put(out, b"Comma"),
        TKind::CopyAssign => put(out, b"CopyAssign"),
        TKind::Materialize { place, argument } => {
            put_numbered(out, b"Materialize", u64::from(place))?;
            put_if(out, argument, b" argument")
        }
        TKind::FullExpression => put(out, b"FullExpression"),
        TKind::Call { func } => put_call(out, b"Call", named, func),
        TKind::VirtualCall {
            func,
            class,
            slot,
            pointer,
        } => {
            put_call(out, b"VirtualCall", named, func)?;
            put_class(alloc, out, named, class)?;
            put_word(out, u64::from(slot))?;
            put_word(out, u64::from(pointer))
        }
        TKind::PointerCall => put(out, b"PointerCall"),
        TKind::Builtin { which } => {
            put(out, b"Builtin")?;
            put_name(out, builtin_name(which))
        }
        TKind::Throw => put(out, b"Throw"),
        TKind::Rethrow => put(out, b"Rethrow"),
        _ => put_initialiser(out, named, kind),
    }
}

// An initialiser.
fn put_initialiser(out: &mut Vec<u8>, named: Named<'_>, kind: TKind) -> Result<(), AllocError> {
    match kind {
        TKind::Store { kind, volatile } => put_word_kind(out, b"Store", kind, volatile),
        TKind::CopyScalar { kind, volatile } => put_word_kind(out, b"CopyScalar", kind, volatile),
        TKind::Construct { func } => put_call(out, b"Construct", named, func),
        TKind::CopyConstruct { func } => put_call(out, b"CopyConstruct", named, func),
        TKind::CopyFrom => put(out, b"CopyFrom"),
        TKind::Pieces => put(out, b"Pieces"),
        TKind::Piece { offset } => put_numbered(out, b"Piece", u64::from(offset)),
        TKind::Elements { count, stride } => put_two(out, b"Elements", count, stride),
        TKind::Destroy {
            func,
            offset,
            count,
            stride,
        } => {
            put_call(out, b"Destroy", named, func)?;
            put_word(out, u64::from(offset))?;
            put_word(out, u64::from(count))?;
            put_word(out, u64::from(stride))
        }
        TKind::Field { offset, kind } => {
            put_numbered(out, b"Field", u64::from(offset))?;
            put_kind(out, kind)
        }
        _ => put_statement(out, kind),
    }
}

// A statement.
fn put_statement(out: &mut Vec<u8>, kind: TKind) -> Result<(), AllocError> {
    match kind {
        TKind::Block { subobjects } => put_flagged(out, b"Block", subobjects, b"subobjects"),
        TKind::Init => put(out, b"Init"),
        TKind::Defer => put(out, b"Defer"),
        TKind::Loop { test_first } => put_flagged(out, b"Loop", test_first, b"test_first"),
        TKind::Switch => put(out, b"Switch"),
        TKind::Case { word } => put_numbered(out, b"Case", word),
        TKind::Default => put(out, b"Default"),
        TKind::Break => put(out, b"Break"),
        TKind::Continue => put(out, b"Continue"),
        TKind::Return => put(out, b"Return"),
        TKind::Try => put(out, b"Try"),
        TKind::Handler { place } => {
            put(out, b"Handler")?;
            match place {
                Some(place) => put_word(out, u64::from(place)),
                None => Ok(()),
            }
        }
        TKind::Atomic { kind } => {
            put(out, b"Atomic")?;
            put_name(out, block_name(kind))
        }
        TKind::Synchronized => put(out, b"Synchronized"),
        _ => put_number(out, 0),
    }
}

/// Puts the kind of a node, with its numbers.
pub fn put_node_kind(
    alloc: Global,
    out: &mut Vec<u8>,
    named: Named<'_>,
    kind: TKind,
) -> Result<(), AllocError> {
    put_access(alloc, out, named, kind)
}

//! What the number operands of instructions stand for, and the line of an instruction.
ghost use Rattle.std.specs.Prelude.{◌≡◌, slice_get};
ghost use Rattle.tx_code.specs.Meaning.{kinds, operators, block_kinds, size_of};
ghost use Rattle.tx_code.specs.Lines.{line_at, line_after};

use crate::LineRow;
use tx_events::BlockKind;
use tx_ints::{BinOp, IntKind};

const KINDS: [IntKind; 12] = [
    IntKind::Bool,
    IntKind::Char,
    IntKind::SChar,
    IntKind::UChar,
    IntKind::Short,
    IntKind::UShort,
    IntKind::Int,
    IntKind::UInt,
    IntKind::Long,
    IntKind::ULong,
    IntKind::LLong,
    IntKind::ULLong,
];

const OPERATORS: [BinOp; 16] = [
    BinOp::Add,
    BinOp::Sub,
    BinOp::Mul,
    BinOp::Div,
    BinOp::Rem,
    BinOp::Shl,
    BinOp::Shr,
    BinOp::And,
    BinOp::Xor,
    BinOp::Or,
    BinOp::Lt,
    BinOp::Gt,
    BinOp::Le,
    BinOp::Ge,
    BinOp::Eq,
    BinOp::Ne,
];

const BLOCK_KINDS: [BlockKind; 3] = [BlockKind::NoExcept, BlockKind::Commit, BlockKind::Cancel];

/// The integer kind with this number.
pub fn int_kind(number: u8) -> Option<IntKind>
    ensures { result ≡ slice_get kinds number }
{
    KINDS.get(number as usize).copied()
}

/// The operator with this number.
pub fn operator(number: u8) -> Option<BinOp>
    ensures { result ≡ slice_get operators number }
{
    OPERATORS.get(number as usize).copied()
}

/// The kind of atomic block with this number.
pub fn block_kind(number: u8) -> Option<BlockKind>
    ensures { result ≡ slice_get block_kinds number }
{
    BLOCK_KINDS.get(number as usize).copied()
}

/// The bytes of a value of this kind in memory: 1, 2, 4 or 8.
pub fn size(kind: IntKind) -> u8
    ensures { result ≡ size_of kind }
{
    match kind {
        IntKind::Bool | IntKind::Char | IntKind::SChar | IntKind::UChar => 1,
        IntKind::Short | IntKind::UShort => 2,
        IntKind::Int | IntKind::UInt => 4,
        IntKind::Long | IntKind::ULong | IntKind::LLong | IntKind::ULLong => 8,
    }
}

// The line where this row has been seen too.
fn line_with(line: Option<u32>, row: LineRow, index: u32) -> Option<u32>
    ensures { result ≡ line_after line row index }
{
    if row.from <= index {
        Some(row.line)
    } else {
        line
    }
}

/// The source line of the instruction at an index: that of the last of these rows that begins at or before it.
#[tactic(auto, using(crate::proofs::LineLemmas::line_here))]
pub fn line(lines: &[LineRow], index: u32) -> Option<u32>
    ensures { result ≡ line_at lines.now index }
{
    let mut line = None;
    for row in lines {
        line = line_with(line, *row, index);
    }
    line
}

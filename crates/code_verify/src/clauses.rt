//! Clauses of sound code that speak of an instruction or a row alone, with the clause's number.
ghost use Rattle.std.specs.Prelude.{◌≡◌};
ghost use Rattle.tx_code.specs.Sound.{target_lies, row_lies, is_last, is_known, row_is_known, is_promoted, outside_right, is_edge, frame_right, lies_in_exception};

use tx_code::{Instr, Row, int_kind, size};
use tx_events::{EXCEPTION_SIZE, STACK_SIZE};

/// How many kinds of integers there are, how many operators, and the first promoted kind.
const KINDS: u8 = 12;

const OPERATORS: u8 = 16;

const INT: u8 = 6;

/// 1: the instruction's target lies in a body of so many instructions.
pub fn target_lies(instrs: usize, instr: Instr) -> bool
    ensures { result ≡ target_lies instrs instr }
{
    match instr {
        Instr::Jump(target) | Instr::JumpZero(target) => (target as usize) < instrs,
        _ => true,
    }
}

/// 1: the row and its target lie in a body of so many instructions.
pub fn row_lies(instrs: usize, row: Row) -> bool
    ensures { result ≡ row_lies instrs row }
{
    (row.from as usize) < instrs && row.to as usize <= instrs && (row.target as usize) < instrs
}

/// 1: a body may end in it.
pub fn is_last(instr: Instr) -> bool
    ensures { result ≡ is_last instr }
{
    match instr {
        Instr::Jump(_)
        | Instr::Ret(_)
        | Instr::Throw
        | Instr::Rethrow
        | Instr::Resume
        | Instr::Abort => true,
        _ => false,
    }
}

// A promoted kind (C++14 4.5).
fn is_promoted(kind: u8) -> bool
    ensures { result ≡ is_promoted kind }
{
    INT <= kind && kind < KINDS
}

/// 2: kinds, operators and kinds of blocks are of their tables.
pub fn is_known(instr: Instr) -> bool
    ensures { result ≡ is_known instr }
{
    match instr {
        Instr::Load(kind) | Instr::TLoad(kind) | Instr::VLoad(kind) => kind < KINDS,
        Instr::Store(kind) | Instr::TStore(kind) | Instr::VStore(kind) => kind < KINDS,
        Instr::Bin { op, kind } => op < OPERATORS && is_promoted(kind),
        Instr::Neg(kind) => is_promoted(kind),
        Instr::Conv { from, to } => from < KINDS && to < KINDS,
        Instr::Begin(kind) => kind < 3,
        Instr::PutException { offset: _, kind } => kind < KINDS,
        Instr::GetException { offset: _, kind } => kind < KINDS,
        _ => true,
    }
}

/// 2: `what` is of its table, and a row names a type only where it handles one.
pub fn row_is_known(row: Row) -> bool
    ensures { result ≡ row_is_known row }
{
    row.what < 7 && (row.what == 1 || row.ty == 0)
}

/// 7: a number of a kind lies in the bytes of an exception.
pub fn lies_in_exception(offset: u8, kind: u8) -> bool
    ensures { result ≡ lies_in_exception offset kind }
{
    match int_kind(kind) {
        None => false,
        Some(kind) => u16::from(offset) + u16::from(size(kind)) <= EXCEPTION_SIZE as u16,
    }
}

/// 9: the instruction may stand outside of transactions.
pub fn outside_right(instr: Instr) -> bool
    ensures { result ≡ outside_right instr }
{
    match instr {
        Instr::TLoad(_) | Instr::TStore(_) => false,
        Instr::TCall { func: _, words: _ } | Instr::TCallIndirect { ty: _, words: _ } => false,
        _ => true,
    }
}

/// 10: the row is the edge of a block.
pub fn is_edge(row: Row) -> bool
    ensures { result ≡ is_edge row }
{
    row.what >= 3
}

/// 11: a frame's size.
pub fn frame_right(size: u32) -> bool
    ensures { result ≡ frame_right size }
{
    size % 16 == 0 && 16 <= size && u64::from(size) <= STACK_SIZE
}

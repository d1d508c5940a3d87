//! The numbers of kinds and operators.

ghost use Rattle.std.specs.Prelude.{◌≡◌, Some, slice_get};
ghost use Rattle.tx_code.specs.Meaning.{kinds, operators, block_kinds};
ghost use Rattle.low_code.specs.Numbers.{kind_number as number_of_kind, operator_number as number_of_operator, block_number as number_of_block, load as load_of, bytes_number as number_of_bytes, store_number as store_of_number, store as store_of, store_converted as converting_store};

use cpp_tree::below::{BinOp, BlockKind, IntKind};
use tx_code::Instr;

/// The number of the kind of addresses.
pub const ADDRESS: u8 = 9;

/// The number of a kind.
pub fn kind_number(kind: IntKind) -> u8
    ensures number { result ≡ number_of_kind kind }
    ensures found { slice_get kinds result ≡ Some kind }
{
    match kind {
        IntKind::Bool => 0,
        IntKind::Char => 1,
        IntKind::SChar => 2,
        IntKind::UChar => 3,
        IntKind::Short => 4,
        IntKind::UShort => 5,
        IntKind::Int => 6,
        IntKind::UInt => 7,
        IntKind::Long => 8,
        IntKind::ULong => 9,
        IntKind::LLong => 10,
        IntKind::ULLong => 11,
    }
}

/// The number of an operator.
pub fn operator_number(op: BinOp) -> u8
    ensures number { result ≡ number_of_operator op }
    ensures found { slice_get operators result ≡ Some op }
{
    match op {
        BinOp::Add => 0,
        BinOp::Sub => 1,
        BinOp::Mul => 2,
        BinOp::Div => 3,
        BinOp::Rem => 4,
        BinOp::Shl => 5,
        BinOp::Shr => 6,
        BinOp::And => 7,
        BinOp::Xor => 8,
        BinOp::Or => 9,
        BinOp::Lt => 10,
        BinOp::Gt => 11,
        BinOp::Le => 12,
        BinOp::Ge => 13,
        BinOp::Eq => 14,
        BinOp::Ne => 15,
    }
}

/// The number of a kind of atomic block.
pub fn block_number(kind: BlockKind) -> u8
    ensures number { result ≡ number_of_block kind }
    ensures found { slice_get block_kinds result ≡ Some kind }
{
    match kind {
        BlockKind::NoExcept => 0,
        BlockKind::Commit => 1,
        BlockKind::Cancel => 2,
    }
}

/// The number of a synchronized block's edge; an atomic block's has that of its kind and 3.
pub const SYNC_EDGE: u8 = 6;

/// Reads a scalar of this kind.
pub fn load(kind: IntKind, volatile: bool) -> Instr
    ensures { result ≡ load_of kind volatile }
{
    let kind = kind_number(kind);
    if volatile {
        Instr::VLoad(kind)
    } else {
        Instr::Load(kind)
    }
}

/// The number of the kind that tells which bytes of a word a scalar of this kind is. A `bool` is the lowest byte: the word was converted before.
pub fn bytes_number(kind: IntKind) -> u8
    ensures { result ≡ number_of_bytes kind }
{
    match kind {
        IntKind::Bool => kind_number(IntKind::UChar),
        _ => kind_number(kind),
    }
}

// Writes a scalar of the kind of this number.
fn store_number(kind: u8, volatile: bool) -> Instr
    ensures { result ≡ store_of_number kind volatile }
{
    if volatile {
        Instr::VStore(kind)
    } else {
        Instr::Store(kind)
    }
}

/// Writes the bytes of a word that a scalar of this kind is.
pub fn store(kind: IntKind, volatile: bool) -> Instr
    ensures { result ≡ store_of kind volatile }
{
    store_number(bytes_number(kind), volatile)
}

/// Converts a word to this kind and writes it.
pub fn store_converted(kind: IntKind, volatile: bool) -> Instr
    ensures { result ≡ converting_store kind volatile }
{
    store_number(kind_number(kind), volatile)
}

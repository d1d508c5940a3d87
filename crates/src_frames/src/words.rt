//! Operations on words.

ghost use Rattle.std.specs.Prelude.{◌≡◌, ◌≤◌, false};
ghost use Rattle.cpp_tree.specs.tx_ints.Integers.{InRange, is_shift as is_shift_of};
ghost use Rattle.cpp_tree.specs.tx_ints.Words.{value_of_word};
ghost use Rattle.cpp_tree.specs.tx_ints.declared.kinds.IntKind.TheVariants.{Int, Long};
ghost use Rattle.cpp_tree.specs.cpp_layout.Layout.{kind_size};
ghost use Rattle.src_mean.specs.Source.{converted as converted_to, plus as sum_of, stored_bytes as bytes_stored, right_value as right_operand, applied as applied_to, trap_of as trap_from, reply_word as word_of_reply};
ghost use Rattle.src_frames.specs.Words.{as_word};

use cpp_tree::below::{
    ArithTrap, BinOp, IntKind, Reply, Trap, apply, int_size, value_of_word, word_of,
};

/// The number of a word in a kind, as a word.
pub fn converted(kind: IntKind, word: u64) -> u64
    ensures { result ≡ converted_to kind word }
{
    word_of(value_of_word(kind, word))
}

/// A sum of addresses.
#[tactic(auto, unfolding(src_mean::specs::Source::plus))]
pub fn plus(address: u64, offset: u64) -> u64
    ensures { result ≡ sum_of address offset }
{
    address.wrapping_add(offset)
}

/// How many bytes an access of this kind has.
pub fn size_of_kind(kind: IntKind) -> u8
    ensures value { result ≡ kind_size kind }
    ensures few { result ≤ 8 }
{
    int_size(kind) as u8
}

/// The bytes of a word that an access of this kind stores.
#[tactic(auto, unfolding(src_mean::specs::Source::stored_bytes))]
pub fn stored_bytes(kind: IntKind, word: u64) -> u64
    ensures { result ≡ bytes_stored kind word }
{
    match kind {
        IntKind::Bool | IntKind::Char | IntKind::SChar | IntKind::UChar => word % 0x100,
        IntKind::Short | IntKind::UShort => word % 0x1_0000,
        IntKind::Int | IntKind::UInt => word % 0x1_0000_0000,
        IntKind::Long | IntKind::ULong | IntKind::LLong | IntKind::ULLong => word,
    }
}

// Whether the count of the operator is taken as it is.
fn is_shift(op: BinOp) -> bool
    ensures { result ≡ is_shift_of op }
{
    match op {
        BinOp::Shl | BinOp::Shr => true,
        BinOp::Add | BinOp::Sub | BinOp::Mul | BinOp::Div | BinOp::Rem => false,
        BinOp::And | BinOp::Xor | BinOp::Or => false,
        BinOp::Lt | BinOp::Gt | BinOp::Le | BinOp::Ge | BinOp::Eq | BinOp::Ne => false,
    }
}

// The right operand as a number.
fn right_value(op: BinOp, kind: IntKind, word: u64) -> i128
    ensures value { result ≡ right_operand op kind word }
    ensures range { is_shift_of op ≡ false → InRange kind result }
{
    if is_shift(op) {
        i128::from(word)
    } else {
        value_of_word(kind, word)
    }
}

/// An operator on words.
pub fn applied(op: BinOp, kind: IntKind, left: u64, right: u64) -> Result<u64, ArithTrap>
    ensures { result ≡ as_word (applied_to op kind left right) }
{
    match apply(
        op,
        kind,
        value_of_word(kind, left),
        right_value(op, kind, right),
    ) {
        Ok(value) => Ok(word_of(value)),
        Err(trap) => Err(trap),
    }
}

/// What this machine makes of an operator that has no value.
pub fn trap_of(trap: ArithTrap) -> Trap
    ensures { result ≡ trap_from trap }
{
    match trap {
        ArithTrap::Overflow => Trap::Overflow,
        ArithTrap::DivideByZero => Trap::DivideByZero,
        ArithTrap::ShiftRange => Trap::ShiftRange,
    }
}

/// A word as a number of 32 bits with a sign.
pub fn int_value(word: u64) -> i32
    ensures { result ≡ value_of_word Int word }
{
    value_of_word(IntKind::Int, word) as i32
}

/// A word as a number of 64 bits with a sign.
pub fn long_value(word: u64) -> i64
    ensures { result ≡ value_of_word Long word }
{
    value_of_word(IntKind::Long, word) as i64
}

/// A reply as a word.
pub fn reply_word(reply: Reply) -> u64
    ensures { result ≡ word_of_reply reply }
{
    match reply {
        Reply::Nothing => 0,
        Reply::Loaded { value } => value,
        Reply::Byte { value } => word_of(i128::from(value)),
        Reply::Id { id } => word_of(i128::from(id)),
    }
}

//! Conversions between the kinds: promotion, the usual arithmetic conversions, and a number's conversion to a kind.

ghost use Rattle.std.specs.Prelude.{◌≡◌, pos};
ghost use Rattle.std.specs.Int.{int_rem_euclid};
ghost use Rattle.tx_ints.specs.Integers.{InRange, convert_of, promote_of, usual_of, common_of, modulus, reduced};

use crate::kinds::IntKind;

/// The kind that an operand of this kind is promoted to (C++14 4.5).
pub fn promote(k: IntKind) -> IntKind
    ensures value { result ≡ promote_of k }
    ensures promoted { promote_of result ≡ result }
{
    match k {
        IntKind::Bool | IntKind::Char | IntKind::SChar | IntKind::UChar => IntKind::Int,
        IntKind::Short | IntKind::UShort => IntKind::Int,
        IntKind::Int | IntKind::UInt | IntKind::Long | IntKind::ULong => k,
        IntKind::LLong | IntKind::ULLong => k,
    }
}

/// The common kind of two operands, by the usual arithmetic conversions (C++14 5/10).
pub fn usual(a: IntKind, b: IntKind) -> IntKind
    ensures value { result ≡ usual_of a b }
    ensures promoted { promote_of result ≡ result }
{
    common(promote(a), promote(b))
}

// The common kind of two promoted kinds: the later in the list of kinds, but that no signed kind of 64 bits has all the
// numbers of an unsigned one.
fn common(a: IntKind, b: IntKind) -> IntKind
    requires left { promote_of a ≡ a }
    requires right { promote_of b ≡ b }
    ensures value { result ≡ common_of a b }
    ensures promoted { promote_of result ≡ result }
{
    match (a, b) {
        (IntKind::ULLong, _) | (_, IntKind::ULLong) => IntKind::ULLong,
        (IntKind::ULong, IntKind::LLong) | (IntKind::LLong, IntKind::ULong) => IntKind::ULLong,
        (IntKind::LLong, _) | (_, IntKind::LLong) => IntKind::LLong,
        (IntKind::ULong, _) | (_, IntKind::ULong) => IntKind::ULong,
        (IntKind::Long, _) | (_, IntKind::Long) => IntKind::Long,
        (IntKind::UInt, _) | (_, IntKind::UInt) => IntKind::UInt,
        _ => IntKind::Int,
    }
}

/// The number of the kind that `v` converts to: the one equal to it modulo 2^n (C++14 4.7), or of `Bool` 0 for 0 and
/// else 1 (C++14 4.12).
pub fn convert(to: IntKind, v: i128) -> i128
    ensures value { result ≡ convert_of to v }
    ensures range { InRange to result }
{
    match to {
        IntKind::Bool => { if v == 0 { 0 } else { 1 } }
        _ => reduce(to, v),
    }
}

/// The number of the kind that is equal to `v` modulo 2^n.
pub fn reduce(kind: IntKind, v: i128) -> i128
    ensures value { result ≡ reduced kind v }
    ensures range { InRange kind result }
{
    let low = low_bits(kind, v);
    if low > kind.greatest() {
        low - kind.modulus()
    } else {
        low
    }
}

// The remainder of `v` by 2^n.
fn low_bits(kind: IntKind, v: i128) -> i128
    ensures { result ≡ int_rem_euclid v (pos (modulus kind)) }
{
    v & (kind.modulus() - 1)
}

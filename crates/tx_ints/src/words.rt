//! Words of 64 bits, as which a machine keeps the numbers of all kinds.

ghost use Rattle.std.specs.Prelude.{◌≡◌};
ghost use Rattle.tx_ints.specs.Integers.{InRange};
ghost use Rattle.tx_ints.specs.Words.{word_of, value_of_word};

use crate::conversions::convert;
use crate::kinds::IntKind;

/// The word that stands for a number: the number modulo 2^64.
pub fn word_of(v: i128) -> u64
    ensures { result ≡ word_of v }
{
    (v & 0xffff_ffff_ffff_ffff) as u64
}

/// The number of the kind that a word stands for.
pub fn value_of_word(kind: IntKind, word: u64) -> i128
    ensures value { result ≡ value_of_word kind word }
    ensures range { InRange kind result }
{
    convert(kind, word as i128)
}

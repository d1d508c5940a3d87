//! Reading and writing some bits of a word.
ghost use Rattle.std.specs.Prelude.{◌≡◌, ◌+◌, ◌*◌, ◌/◌, ◌%◌, ◌^◌, ◌<◌, ◌≤◌};

/// The lowest `count` bits of a word.
fn low_bits(word: u64, count: u32) -> u64
    requires { count < 64 }
    ensures { result ≡ word % 2 ^ count }
{
    word & ((1 << count) - 1)
}

/// The word without its lowest `count` bits.
fn high_bits(word: u64, count: u32) -> u64
    requires { count ≤ 64 }
    ensures { result ≡ word / 2 ^ count * 2 ^ count }
{
    if count == 64 {
        0
    } else {
        (word >> count) << count
    }
}

/// The `count` bits of a word that lie above the lowest `shift` bits.
pub(crate) fn part(word: u64, shift: u32, count: u32) -> u64
    requires { shift + count ≤ 64 }
    ensures value { result ≡ word / 2 ^ shift % 2 ^ count }
    ensures all { count ≡ 64 → result ≡ word }
{
    if count == 64 {
        word
    } else if count == 0 {
        0
    } else {
        low_bits(word >> shift, count)
    }
}

/// The word with other bits there.
pub(crate) fn with_part(word: u64, shift: u32, count: u32, value: u64) -> u64
    requires within { shift + count ≤ 64 }
    requires some { 0 < count }
    requires fits { value < 2 ^ count }
    ensures merged { result
        ≡ word / 2 ^ (shift + count) * 2 ^ (shift + count) + value * 2 ^ shift + word % 2 ^ shift }
    ensures all { count ≡ 64 → result ≡ value }
{
    let high = high_bits(word, shift + count);
    let middle = value << shift;
    let low = low_bits(word, shift);
    high + middle + low
}

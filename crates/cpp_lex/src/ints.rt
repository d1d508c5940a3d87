//! Integer literals: where they end, their values and their types.

ghost use Rattle.std.specs.Prelude.{◌≡◌, ◌+◌, ◌<◌, ◌≤◌, ◌^◌, length, ℕ, nat_le, slice_index, Some, None};
ghost use Rattle.std.specs.List.{find, list_any, count_by};
ghost use Rattle.std.specs.Option.{SomeIff};
ghost use Rattle.cpp_lex.specs.Numbers.{number, with_byte};
ghost use Rattle.cpp_lex.specs.Ints.{is_decimal, Digits, Prefixed, Literal, LongSuffix, Suffix, IsInt, is_u, is_l, base_of, int_value, int_largest, int_types, int_type_of};
ghost use Rattle.cpp_lex.specs.Readings.{IsLongest, IsFurthest};

use crate::bytes::{byte, digit, is_digit};
use tx_ints::IntKind;

/// The number so far with one more byte, which adds nothing if it is no digit of the base; if that is below 2 to the 64.
fn with_byte(base: u64, total: u64, b: u8) -> Option<u64>
    requires { base ≤ 16 }
    ensures { SomeIff result (with_byte base total b < 2 ^ 64) (with_byte base total b) }
{
    let Some(value) = digit(base, b) else {
        return Some(total);
    };
    let Some(scaled) = total.checked_mul(base) else {
        return None;
    };
    scaled.checked_add(value)
}

/// The number that the digits of the base among the bytes write, if it is below 2 to the 64.
pub fn number(base: u64, bytes: &[u8]) -> Option<u64>
    requires at_least { 1 ≤ base }
    requires at_most { base ≤ 16 }
    ensures { SomeIff result (number base bytes.now < 2 ^ 64) (number base bytes.now) }
{
    let mut total: u64 = 0;
    for b in bytes {
        let Some(next) = with_byte(base, total, *b) else {
            return None;
        };
        total = next;
    }
    Some(total)
}

/// The base that a literal is written in.
pub fn base_of(bytes: &[u8]) -> u64
    ensures { result ≡ base_of bytes.now }
{
    if byte(bytes, 0) != b'0' {
        return 10;
    }
    match byte(bytes, 1) {
        b'x' => 16,
        b'b' => 2,
        _ => 8,
    }
}

/// The value of a literal, if it is below 2 to the 64.
#[tactic(auto, unfolding(crate::specs::Ints::int_value))]
pub fn int_value(bytes: &[u8]) -> Option<u64>
    ensures { SomeIff result (int_value bytes.now < 2 ^ 64) (int_value bytes.now) }
{
    number(base_of(bytes), bytes)
}

pub fn is_u(b: u8) -> bool
    ensures { result ≡ is_u b }
{
    b == b'u' || b == b'U'
}

pub fn is_l(b: u8) -> bool
    ensures { result ≡ is_l b }
{
    b == b'l' || b == b'L'
}

/// The largest value of the kind.
fn largest(kind: IntKind) -> u64
    ensures { result ≡ int_largest kind }
{
    match kind {
        IntKind::Bool => 1,
        IntKind::Char | IntKind::SChar => 0x7f,
        IntKind::UChar => 0xff,
        IntKind::Short => 0x7fff,
        IntKind::UShort => 0xffff,
        IntKind::Int => 0x7fff_ffff,
        IntKind::UInt => 0xffff_ffff,
        IntKind::Long | IntKind::LLong => 0x7fff_ffff_ffff_ffff,
        IntKind::ULong | IntKind::ULLong => u64::MAX,
    }
}

/// The first of the kinds that holds the value.
fn first_holding(types: &[IntKind], value: u64) -> Option<IntKind>
    ensures { result ≡ find (λ kind. nat_le value (int_largest kind)) types.now }
{
    types.iter().copied().find(|kind| value <= largest(*kind))
}

/// The types that a literal may have, in the order in which they are tried.
fn types_of(is_decimal: bool, has_u: bool, longs: usize) -> &'static [IntKind]
    ensures { result.now ≡ int_types is_decimal has_u longs }
{
    match (has_u, is_decimal, longs) {
        (true, _, 0) => &[IntKind::UInt, IntKind::ULong],
        (true, _, 1) => &[IntKind::ULong],
        (true, _, _) => &[IntKind::ULLong],
        (false, true, 0) => &[IntKind::Int, IntKind::Long],
        (false, true, 1) => &[IntKind::Long],
        (false, true, _) => &[IntKind::LLong],
        (false, false, 0) => &[IntKind::Int, IntKind::UInt, IntKind::Long, IntKind::ULong],
        (false, false, 1) => &[IntKind::Long, IntKind::ULong],
        (false, false, _) => &[IntKind::LLong, IntKind::ULLong],
    }
}

fn is_decimal(bytes: &[u8]) -> bool
    ensures { result ≡ is_decimal bytes.now }
{
    byte(bytes, 0) != b'0'
}

fn has_u(bytes: &[u8]) -> bool
    ensures { result ≡ list_any is_u bytes.now }
{
    bytes.iter().any(|b| is_u(*b))
}

fn count_l(bytes: &[u8]) -> usize
    ensures { result ≡ count_by is_l bytes.now }
{
    bytes.iter().filter(|b| is_l(**b)).count()
}

/// The type of an integer literal of this spelling and value, if one holds the value: that of C++14 [lex.icon].
#[tactic(auto, unfolding(crate::specs::Ints::int_type_of))]
pub fn int_type(bytes: &[u8], value: u64) -> Option<IntKind>
    ensures { result ≡ int_type_of bytes.now value }
{
    let types = types_of(is_decimal(bytes), has_u(bytes), count_l(bytes));
    first_holding(types, value)
}

/// Where the digits of the base that begin at a position end.
pub fn digits_end(base: u64, text: &[u8], from: usize) -> Option<usize>
    requires { base ≤ 16 }
    ensures { IsLongest (λ to. Digits base text.now from to) result }
{
    if !is_digit(base, byte(text, from)) {
        return None;
    }
    let mut at = from + 1;
    'digits: while at < text.len() {
        if is_digit(base, text[at]) {
            at += 1;
        } else if text[at] == b'\'' && is_digit(base, byte(text, at + 1)) {
            at += 2;
        } else {
            return Some(at);
        }
    }
    Some(at)
}

/// Where the digits behind the prefix `0x` or `0b` at a position end.
fn prefixed_end(text: &[u8], from: usize) -> Option<usize>
    requires { from < length text.now }
    ensures { IsLongest (λ to. Prefixed text.now from to) result }
{
    match byte(text, from + 1) {
        b'x' => digits_end(16, text, from + 2),
        b'b' => digits_end(2, text, from + 2),
        _ => None,
    }
}

/// Where the literal that begins at a position ends, without its suffix.
pub fn literal_end(text: &[u8], from: usize) -> Option<usize>
    ensures { IsLongest (λ to. Literal text.now from to) result }
{
    if byte(text, from) != b'0' {
        return digits_end(10, text, from);
    }
    match prefixed_end(text, from) {
        Some(end) => Some(end),
        None => digits_end(8, text, from),
    }
}

fn long_suffix_end(text: &[u8], at: usize) -> Option<usize>
    requires { at ≤ length text.now }
    ensures { IsLongest (λ to. LongSuffix text.now at to) result }
{
    let first = byte(text, at);
    if !is_l(first) {
        return None;
    }
    if byte(text, at + 1) == first {
        Some(at + 2)
    } else {
        Some(at + 1)
    }
}

/// Where the suffix at a position ends.
fn suffix_end(text: &[u8], at: usize) -> usize
    requires { at ≤ length text.now }
    ensures { IsFurthest (λ to. Suffix text.now at to) result }
{
    if is_u(byte(text, at)) {
        return match long_suffix_end(text, at + 1) {
            Some(end) => end,
            None => at + 1,
        };
    }
    let Some(end) = long_suffix_end(text, at) else {
        return at;
    };
    if is_u(byte(text, end)) { end + 1 } else { end }
}

/// Where the integer that begins at a position ends.
pub fn int_end(text: &[u8], from: usize) -> Option<usize>
    ensures { IsLongest (λ to. IsInt text.now from to) result }
{
    let Some(digits_end) = literal_end(text, from) else {
        return None;
    };
    Some(suffix_end(text, digits_end))
}

//! Character and string literals with their escapes.

ghost use Rattle.std.specs.Prelude.{◌≡◌, ◌+◌, ◌<◌, ◌≤◌, ◌^◌, length, ℕ, true, false, slice_index, Some, None};
ghost use Rattle.std.specs.Option.{SomeIff};
ghost use Rattle.cpp_lex.specs.Bytes.{is_digit, Run};
ghost use Rattle.cpp_lex.specs.Numbers.{number};
ghost use Rattle.cpp_lex.specs.Quoted.{simple_escape, OctalEscape, HexEscape, Escape, is_char_byte, is_str_byte, OneOf, IsChar, IsStr, escape_value, char_value};
ghost use Rattle.cpp_lex.specs.Readings.{IsTheOne, own_byte};

use crate::bytes::{Class, byte, is_digit, run_end};
use crate::ints::number;

/// The quotes around a literal.
#[derive(Clone, Copy, Debug)]
pub enum Quote {
    Single,
    Double,
}

/// The value of an escape of one letter.
#[tactic(auto, unfolding(crate::specs::Quoted::simple_escape))]
fn simple_escape(b: u8) -> Option<u8>
    ensures { result ≡ simple_escape b }
{
    match b {
        b'n' => Some(10),
        b't' => Some(9),
        b'v' => Some(11),
        b'b' => Some(8),
        b'r' => Some(13),
        b'f' => Some(12),
        b'a' => Some(7),
        b'\\' | b'?' | b'\'' | b'"' => Some(b),
        _ => None,
    }
}

/// Whether the digits of the base among the bytes write at most 255.
fn fits(base: u64, bytes: &[u8]) -> bool
    requires at_least { 1 ≤ base }
    requires at_most { base ≤ 16 }
    ensures yes { result ≡ true → number base bytes.now ≤ 255 }
    ensures no { result ≡ false → 255 < number base bytes.now }
{
    match number(base, bytes) {
        Some(value) => value <= 255,
        None => false,
    }
}

/// Where the hexadecimal escape at a position ends.
fn hex_escape_end(text: &[u8], from: usize) -> Option<usize>
    requires { from < length text.now }
    ensures { IsTheOne (λ to. HexEscape text.now from to) result }
{
    if byte(text, from + 1) != b'x' {
        return None;
    }
    let to = run_end(Class::HexDigit, text, from + 2);
    if to < from + 3 {
        return None;
    }
    if fits(16, &text[from..to]) {
        Some(to)
    } else {
        None
    }
}

/// Where the octal digits behind a backslash end, of which three at most belong to it.
fn octal_digits_end(text: &[u8], from: usize) -> usize
    requires { from < length text.now }
    ensures run { Run (is_digit 8) text.now (from + 1) result }
    ensures three { result ≤ from + 4 }
    ensures stops { result < from + 4 → is_digit 8 (slice_index text.now result) ≡ false }
{
    let mut at = from + 1;
    'digits: while at < from + 4 {
        if !is_digit(8, byte(text, at)) {
            return at;
        }
        at += 1;
    }
    at
}

/// Where the octal escape at a position ends.
fn octal_escape_end(text: &[u8], from: usize) -> Option<usize>
    requires { from < length text.now }
    ensures { IsTheOne (λ to. OctalEscape text.now from to) result }
{
    let to = octal_digits_end(text, from);
    if to < from + 2 {
        return None;
    }
    if fits(8, &text[from..to]) {
        Some(to)
    } else {
        None
    }
}

/// Where the escape at a position ends.
fn escape_end(text: &[u8], from: usize) -> Option<usize>
    ensures { IsTheOne (λ to. Escape text.now from to) result }
{
    if byte(text, from) != b'\\' {
        return None;
    }
    let letter = byte(text, from + 1);
    if let Some(_) = simple_escape(letter) {
        return Some(from + 2);
    }
    if letter == b'x' {
        hex_escape_end(text, from)
    } else {
        octal_escape_end(text, from)
    }
}

fn is_char_byte(b: u8) -> bool
    ensures { result ≡ is_char_byte b }
{
    b >= 32 && b <= 126 && !(b == b'\'' || b == b'\\')
}

fn is_str_byte(b: u8) -> bool
    ensures { result ≡ is_str_byte b }
{
    (b >= 32 && b <= 126 && !(b == b'"' || b == b'\\')) || b >= 128
}

/// Whether a byte stands for itself between the quotes.
fn own_byte(quote: Quote, b: u8) -> bool
    ensures { result ≡ own_byte quote b }
{
    match quote {
        Quote::Single => is_char_byte(b),
        Quote::Double => is_str_byte(b),
    }
}

/// Where the byte or the escape at a position between the quotes ends.
fn one_of_end(quote: Quote, text: &[u8], from: usize) -> Option<usize>
    requires { from ≤ length text.now }
    ensures { IsTheOne (λ to. OneOf (own_byte quote) text.now from to) result }
{
    if own_byte(quote, byte(text, from)) {
        Some(from + 1)
    } else {
        escape_end(text, from)
    }
}

/// Where the character that begins at a position ends.
pub fn char_end(text: &[u8], from: usize) -> Option<usize>
    requires { from < length text.now }
    ensures { IsTheOne (λ to. IsChar text.now from to) result }
{
    if text[from] != b'\'' {
        return None;
    }
    let Some(inner_end) = one_of_end(Quote::Single, text, from + 1) else {
        return None;
    };
    if byte(text, inner_end) == b'\'' {
        Some(inner_end + 1)
    } else {
        None
    }
}

/// Where the string that begins at a position ends.
pub fn str_end(text: &[u8], from: usize) -> Option<usize>
    requires { from < length text.now }
    ensures { IsTheOne (λ to. IsStr text.now from to) result }
{
    if text[from] != b'"' {
        return None;
    }
    let mut at = from + 1;
    'inner: while at < text.len() {
        if text[at] == b'"' {
            return Some(at + 1);
        }
        let Some(next) = one_of_end(Quote::Double, text, at) else {
            return None;
        };
        at = next;
    }
    None
}

/// The value of an escape, if it is below 2 to the 64.
#[tactic(auto, unfolding(crate::specs::Quoted::escape_value))]
fn escape_value(bytes: &[u8]) -> Option<u64>
    ensures { SomeIff result (escape_value bytes.now < 2 ^ 64) (escape_value bytes.now) }
{
    let letter = byte(bytes, 1);
    if let Some(value) = simple_escape(letter) {
        return Some(u64::from(value));
    }
    if letter == b'x' {
        number(16, bytes)
    } else {
        number(8, bytes)
    }
}

/// The value of a character with its quotes, if it is below 2 to the 64.
#[tactic(auto, unfolding(crate::specs::Quoted::char_value))]
pub fn char_value(bytes: &[u8]) -> Option<u64>
    requires { 2 ≤ length bytes.now }
    ensures { SomeIff result (char_value bytes.now < 2 ^ 64) (char_value bytes.now) }
{
    if bytes[1] == b'\\' {
        escape_value(&bytes[1..bytes.len() - 1])
    } else {
        Some(u64::from(bytes[1]))
    }
}

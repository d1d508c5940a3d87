//! Classes of bytes, and how far bytes of one class reach.

ghost use Rattle.std.specs.Prelude.{◌≡◌, ◌+◌, ◌<◌, ◌≤◌, length, IsTrue, ◌↔◌, true, false, Some, None, if◌then◌else◌, slice_index};
ghost use Rattle.cpp_lex.specs.Bytes.{is_letter, is_word_byte, is_blank, is_line_byte, is_line_blank, is_quote, is_digit, digit_value, Run, Are};
ghost use Rattle.cpp_lex.specs.Readings.{in_class, IsFurthest};

/// A class of bytes that pieces have runs of.
#[derive(Clone, Copy, Debug)]
pub enum Class {
    WordByte,
    Blank,
    LineByte,
    LineBlank,
    OctalDigit,
    HexDigit,
}

pub fn is_letter(b: u8) -> bool
    ensures { result ≡ is_letter b }
{
    b.is_ascii_alphabetic() || b == b'_'
}

pub fn is_word_byte(b: u8) -> bool
    ensures { result ≡ is_word_byte b }
{
    is_letter(b) || b.is_ascii_digit()
}

pub fn is_blank(b: u8) -> bool
    ensures { result ≡ is_blank b }
{
    b == b' ' || (b >= 9 && b <= 13)
}

pub fn is_line_byte(b: u8) -> bool
    ensures { result ≡ is_line_byte b }
{
    b != b'\n'
}

pub fn is_quote(b: u8) -> bool
    ensures { result ≡ is_quote b }
{
    b == b'\'' || b == b'"'
}

/// What a byte counts as a digit of the base, at most 16.
pub fn digit(base: u64, b: u8) -> Option<u64>
    requires { base ≤ 16 }
    ensures { result ≡ (if is_digit base b then Some (digit_value b) else None) }
{
    let value = match b {
        b'0'..=b'9' => b - b'0',
        b'a'..=b'f' => b - b'a' + 10,
        b'A'..=b'F' => b - b'A' + 10,
        _ => return None,
    };
    if u64::from(value) < base {
        Some(u64::from(value))
    } else {
        None
    }
}

pub fn is_digit(base: u64, b: u8) -> bool
    requires { base ≤ 16 }
    ensures is { result ≡ is_digit base b }
    ensures high { result ≡ true → 48 ≤ b }
{
    digit(base, b).is_some()
}

pub fn in_class(class: Class, b: u8) -> bool
    ensures { result ≡ in_class class b }
{
    match class {
        Class::WordByte => is_word_byte(b),
        Class::Blank => is_blank(b),
        Class::LineByte => is_line_byte(b),
        Class::LineBlank => is_blank(b) && is_line_byte(b),
        Class::OctalDigit => is_digit(8, b),
        Class::HexDigit => is_digit(16, b),
    }
}

/// The byte at a position, or 0 behind the end of the text.
pub fn byte(text: &[u8], at: usize) -> u8
    ensures is { result ≡ slice_index text.now at }
    ensures there { 0 < result → at < length text.now }
{
    if at < text.len() { text[at] } else { 0 }
}

/// Whether two bytes stand at a position.
pub fn are(text: &[u8], at: usize, first: u8, second: u8) -> bool
    requires { at ≤ length text.now }
    ensures { IsTrue result ↔ Are text.now at first second }
{
    byte(text, at) == first && byte(text, at + 1) == second
}

/// Where the bytes of the class that begin at a position end.
pub fn run_end(class: Class, text: &[u8], from: usize) -> usize
    requires { from ≤ length text.now }
    ensures run { IsFurthest (Run (in_class class) text.now from) result }
    ensures stops { result < length text.now → in_class class (slice_index text.now result) ≡ false }
{
    let mut at = from;
    'run: while at < text.len() && in_class(class, text[at]) {
        at += 1;
    }
    at
}

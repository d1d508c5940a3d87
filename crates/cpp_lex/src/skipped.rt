//! What stands between tokens: blanks, comments and lines that begin with `#`.

ghost use Rattle.std.specs.Prelude.{◌≡◌, ◌+◌, ◌<◌, ◌≤◌, ◌↔◌, IsTrue, MatchOption, length, ℕ, codes, slice_range};
ghost use Rattle.cpp_lex.specs.Bytes.{Are, Run, is_blank};
ghost use Rattle.cpp_lex.specs.Skipped.{IsBlank, IsLineComment, IsBlockComment, IsHashLine, IsPragma, IsMarker, IsFirstOnLine};
ghost use Rattle.cpp_lex.specs.Readings.{IsLongest, IsClosing};

use crate::bytes::{Class, are, byte, is_blank, is_word_byte, run_end};

/// Where the blanks that begin at a position end.
pub fn blank_end(text: &[u8], from: usize) -> Option<usize>
    requires { from < length text.now }
    ensures { IsLongest (λ to. IsBlank text.now from to) result }
{
    if is_blank(text[from]) {
        Some(run_end(Class::Blank, text, from + 1))
    } else {
        None
    }
}

/// Where the comment that `//` opens at a position ends.
pub fn line_comment_end(text: &[u8], from: usize) -> Option<usize>
    requires { from < length text.now }
    ensures { IsLongest (λ to. IsLineComment text.now from to) result }
{
    if !are(text, from, b'/', b'/') {
        return None;
    }
    Some(run_end(Class::LineByte, text, from + 2))
}

/// The first position from a position on where `*/` stands.
fn closing(text: &[u8], from: usize) -> Option<usize>
    requires { from ≤ length text.now }
    ensures { MatchOption result ((k : ℕ) → from ≤ k → Are text.now k 42 47 → ⊥) (λ at. IsClosing text.now from at) }
{
    let mut at = from;
    'inside: while at < text.len() {
        if are(text, at, b'*', b'/') {
            return Some(at);
        }
        at += 1;
    }
    None
}

/// Where the comment that `/*` opens at a position ends.
pub fn block_comment_end(text: &[u8], from: usize) -> Option<usize>
    requires { from < length text.now }
    ensures { IsLongest (λ to. IsBlockComment text.now from to) result }
{
    if !are(text, from, b'/', b'*') {
        return None;
    }
    match closing(text, from + 2) {
        Some(at) => Some(at + 2),
        None => None,
    }
}

fn begins_pragma(text: &[u8], at: usize) -> bool
    requires { at ≤ length text.now }
    ensures { IsTrue result ↔ (slice_range text.now at (at + 6) ≡ codes "pragma") }
{
    text[at..].starts_with(b"pragma")
}

/// Whether the word `pragma` stands at a position.
fn is_pragma(text: &[u8], at: usize) -> bool
    requires { at ≤ length text.now }
    ensures { IsTrue result ↔ IsPragma text.now at }
{
    begins_pragma(text, at) && !is_word_byte(byte(text, at + 6))
}

/// Whether a digit or the word `pragma` stands at a position.
fn is_marker(text: &[u8], at: usize) -> bool
    requires { at ≤ length text.now }
    ensures { IsTrue result ↔ IsMarker text.now at }
{
    byte(text, at).is_ascii_digit() || is_pragma(text, at)
}

/// Where the line that `#` begins at a position ends, if it is a line marker or a pragma.
pub fn hash_line_end(text: &[u8], from: usize, is_first: bool) -> Option<usize>
    requires here { from < length text.now }
    requires first { IsTrue is_first ↔ IsFirstOnLine text.now from }
    ensures { IsLongest (λ to. IsHashLine text.now from to) result }
{
    if !is_first {
        return None;
    }
    if text[from] != b'#' {
        return None;
    }
    let marker_at = run_end(Class::LineBlank, text, from + 1);
    if is_marker(text, marker_at) {
        Some(run_end(Class::LineByte, text, marker_at))
    } else {
        None
    }
}

/// Whether only blanks stand on the line before the end of these blanks, where it is known of their beginning.
pub fn is_first_behind(text: &[u8], from: usize, to: usize, is_first: bool) -> bool
    requires ordered { from ≤ to }
    requires inside { to ≤ length text.now }
    requires blank { Run is_blank text.now from to }
    requires first { IsTrue is_first ↔ IsFirstOnLine text.now from }
    ensures { IsTrue result ↔ IsFirstOnLine text.now to }
{
    let mut first = is_first;
    for at in from..to {
        if text[at] == b'\n' {
            first = true;
        }
    }
    first
}

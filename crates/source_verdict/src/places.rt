//! Lines and columns.

ghost use Rattle.std.specs.Prelude.{◌≡◌, ◌≤◌, ◌+◌, length, IfOk, string_bytes, ◌++◌};
ghost use Rattle.source_verdict.specs.Places.{ends_in, since_end, line_of, column_of, place_line};

use std::alloc::{AllocError, Global};

/// A place in a text, both from 1, the column in bytes.
#[derive(Clone, Copy, Debug)]
pub struct Spot {
    pub line: u64,
    pub column: u64,
}

// How many lines end among the bytes.
fn ends_in(bytes: &[u8]) -> u64
    ensures count { result ≡ ends_in bytes.now }
    ensures bound { result ≤ length bytes.now }
{
    let mut count = 0;
    for byte in bytes {
        if *byte == b'\n' {
            count += 1;
        }
    }
    count
}

// How many bytes stand behind the last end of a line.
fn since_end(bytes: &[u8]) -> u64
    ensures count { result ≡ since_end 0 bytes.now }
    ensures bound { result ≤ length bytes.now }
{
    let mut count = 0;
    for byte in bytes {
        if *byte == b'\n' {
            count = 0;
        } else {
            count += 1;
        }
    }
    count
}

/// The line and the column of an offset. Lines end with byte 10; line markers do not change them.
pub fn spot_of(text: &[u8], offset: usize) -> Spot
    ensures line { result.line ≡ line_of text.now offset }
    ensures column { result.column ≡ column_of text.now offset }
{
    let front = match text.get(..offset) {
        Some(front) => front,
        None => text,
    };
    Spot {
        line: ends_in(front) + 1,
        column: since_end(front) + 1,
    }
}

/// `NAME:LINE:COL: WHAT`.
pub fn place_line(
    alloc: Global,
    name: &str,
    text: &[u8],
    offset: usize,
    word: &str,
    rule: &str,
) -> Result<String, AllocError>
    ensures { IfOk result (λ s. string_bytes s ≡ place_line name.now text.now offset (word.now ++ rule.now)) }
{
    let Spot { line, column } = spot_of(text, offset);
    format!(in alloc; "{name}:{line}:{column}: {word}{rule}")
}

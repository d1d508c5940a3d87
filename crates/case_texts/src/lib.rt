//! The lines of the test programs: a case is a line of the input, its answer a line of the output.
//!
//! What cannot stand in a line, and long texts, are written behind a `$`: `$n` is the end of a line, `$9;` the byte 9, and
//! `$*200|(|` a text of 200 parentheses.
#![tactic(auto)]

use std::alloc::{AllocError, Global};

/// Whether a line of the input is a case: it is not empty, and does not begin with `#`.
pub fn is_case(line: &str) -> bool {
    !line.is_empty() && !line.starts_with('#')
}

/// The part of a text at an index, where its parts have this character between them; empty where there is no such part.
pub fn field(text: &str, between: char, at: usize) -> &str {
    for (index, part) in text.split(between).enumerate() {
        if index == at {
            return part;
        }
    }
    ""
}

/// Adds a word to a line, behind a blank if it is not the first. An error is want of memory.
pub fn add_word(line: &mut String, word: &str) -> Result<(), AllocError> {
    if !line.is_empty() {
        line.push_str(" ")?;
    }
    line.push_str(word)
}

// Adds what stands behind a `$`.
fn add_escape(bytes: &mut Vec<u8>, text: &str) -> Result<(), AllocError> {
    if let Some(rest) = text.strip_prefix('n') {
        bytes.push(b'\n')?;
        return bytes.extend_from_slice(rest.as_bytes());
    }
    if let Some(rest) = text.strip_prefix('*') {
        let (count, rest) = rest.split_once('|').unwrap_or(("", rest));
        let (once, rest) = rest.split_once('|').unwrap_or((rest, ""));
        for _ in 0..count.parse::<u32>().unwrap_or(0) {
            bytes.extend_from_slice(once.as_bytes())?;
        }
        return bytes.extend_from_slice(rest.as_bytes());
    }
    let (byte, rest) = text.split_once(';').unwrap_or((text, ""));
    bytes.push(byte.parse::<u8>().unwrap_or(b'?'))?;
    bytes.extend_from_slice(rest.as_bytes())
}

/// The bytes that a text of a case stands for. An error is want of memory.
pub fn bytes_of(alloc: Global, text: &str) -> Result<Vec<u8>, AllocError> {
    let (plain, escapes) = text.split_once('$').unwrap_or((text, ""));
    let mut bytes = Vec::from_slice(alloc, plain.as_bytes())?;
    if plain.len() < text.len() {
        for escape in escapes.split('$') {
            add_escape(&mut bytes, escape)?;
        }
    }
    Ok(bytes)
}

/// The words of a line, which are parted by single blanks. An error is want of memory.
pub fn words_of(alloc: Global, line: &str) -> Result<Vec<String>, AllocError> {
    let mut words = Vec::new(alloc);
    for word in line.split(' ') {
        words.push(String::from_str(alloc, word)?)?;
    }
    Ok(words)
}

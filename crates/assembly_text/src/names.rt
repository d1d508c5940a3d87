//! Lines of names.
ghost use Rattle.std.specs.Prelude.{◌≡◌, ◌≢◌, ◌∷◌, ℕ, List, MatchOption, IfOk, IfSome, None, ◌<◌};
ghost use Rattle.std.specs.Option.{option_map};
ghost use Rattle.assembly_text.specs.Lines.{is_plain};
ghost use Rattle.assembly_text.specs.Front.{digit, escaped, byte_of, Bytes, NameBehind, NoName};

use std::alloc::{AllocError, Global};

/// A name, and what follows its line.
#[derive(Drop)]
pub(crate) struct Named<'a> {
    pub name: Vec<u8>,
    pub rest: &'a [u8],
}

/// Whether a byte stands in a name as it is.
pub(crate) fn is_plain(byte: u8) -> bool
    ensures { result ≡ is_plain byte }
{
    byte >= 32 && byte <= 126 && byte != b'"' && byte != b'\\'
}

/// The number of a hexadecimal digit in lower case.
fn digit(letter: u8) -> Option<u8>
    ensures value { result ≡ digit letter }
    ensures small { IfSome result (λ d. d < 16) }
{
    match letter {
        b'0'..=b'9' => Some(letter - b'0'),
        b'a'..=b'f' => Some(letter - b'a' + 10),
        _ => None,
    }
}

/// The byte whose digits stand behind a backslash.
fn escaped_at(text: &[u8]) -> Option<(u8, &[u8])>
    ensures { option_map (λ p. (p.0, p.1.now)) result ≡ escaped text.now }
{
    match text {
        [mark, high, low, rest @ ..] => {
            if *mark != b'x' {
                return None;
            }
            let high = digit(*high)?;
            let low = digit(*low)?;
            let byte = 16 * high + low;
            if is_plain(byte) {
                return None;
            }
            Some((byte, rest))
        }
        _ => None,
    }
}

/// The byte of a name that a text begins with.
fn byte_at(text: &[u8]) -> Option<(u8, &[u8])>
    ensures { option_map (λ p. (p.0, p.1.now)) result ≡ byte_of text.now }
{
    match text {
        [] => None,
        [byte, rest @ ..] => {
            if is_plain(*byte) {
                return Some((*byte, rest));
            }
            if *byte == b'\\' {
                return escaped_at(rest);
            }
            None
        }
    }
}

/// What follows two bytes.
fn behind(text: &[u8], first: u8, second: u8) -> Option<&[u8]>
    ensures { MatchOption result ((rest : List ℕ) → text.now ≢ first ∷ second ∷ rest) (λ rest. text.now ≡ first ∷ second ∷ rest.now) }
{
    match text {
        [a, b, rest @ ..] if *a == first && *b == second => Some(rest),
        _ => None,
    }
}

/// The bytes of a name, as far as there are some.
fn bytes_at(alloc: Global, text: &[u8]) -> Result<Named<'_>, AllocError>
    ensures { IfOk result (λ n. Bytes n.name.items text.now n.rest.now × (byte_of n.rest.now ≡ None)) }
{
    let mut name = Vec::new(alloc);
    let mut rest = text;
    'bytes: while let Some((byte, after)) = byte_at(rest) {
        name.push(byte)?;
        rest = after;
    }
    Ok(Named { name, rest })
}

/// The name behind its word.
pub(crate) fn name_at(alloc: Global, text: &[u8]) -> Result<Option<Named<'_>>, AllocError>
    ensures { IfOk result (λ r. MatchOption r (NoName text.now) (λ n. NameBehind text.now n.name.items n.rest.now)) }
{
    let Some(quoted) = behind(text, b' ', b'"') else {
        return Ok(None);
    };
    let Named { name, rest } = bytes_at(alloc, quoted)?;
    match behind(rest, b'"', b'\n') {
        Some(rest) => Ok(Some(Named { name, rest })),
        None => Ok(None),
    }
}

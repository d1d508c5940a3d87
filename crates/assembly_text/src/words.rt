//! Lines of a word and numbers.
ghost use Rattle.std.specs.Prelude.{◌≡◌, ◌≢◌, ◌∷◌, ℕ, List, MatchOption, IfOk};
ghost use Rattle.std.specs.Char.{is_ascii_lowercase};
ghost use Rattle.std.specs.List.{prefix_len};
ghost use Rattle.assembly_text.specs.Front.{front_word, behind_word, Field, NoField, Fields, RecordBehind, NoRecord};

use crate::line::Record;
use crate::making::record_by;
use decimal_text::{Number, number_at};
use std::alloc::AllocError;

/// A word, and what follows it.
#[derive(Clone, Copy)]
pub(crate) struct Word<'a> {
    pub word: &'a [u8],
    pub rest: &'a [u8],
}

/// A record, and what follows its line.
#[derive(Clone, Copy)]
pub(crate) struct Found<'a> {
    pub words: Record,
    pub rest: &'a [u8],
}

/// How many letters stand at the front of a text.
fn letters_at(text: &[u8]) -> usize
    ensures { result ≡ prefix_len is_ascii_lowercase text.now }
{
    text.iter().take_while(|b| b.is_ascii_lowercase()).count()
}

/// The lower-case letters at the front of a text.
pub(crate) fn word_at(text: &[u8]) -> Word<'_>
    ensures word { result.word.now ≡ front_word text.now }
    ensures rest { result.rest.now ≡ behind_word text.now }
{
    let (word, rest) = text.split_at(letters_at(text));
    Word { word, rest }
}

/// The number behind a space.
fn field_at(text: &[u8]) -> Option<Number<'_>>
    ensures { MatchOption result (NoField text.now) (λ n. Field text.now n.value n.rest.now) }
{
    match text {
        [b' ', number @ ..] => number_at(number, u64::MAX),
        _ => None,
    }
}

/// What follows the end of a line.
pub(crate) fn line_end(text: &[u8]) -> Option<&[u8]>
    ensures { MatchOption result ((rest : List ℕ) → text.now ≢ 10 ∷ rest) (λ rest. text.now ≡ 10 ∷ rest.now) }
{
    match text {
        [b'\n', rest @ ..] => Some(rest),
        _ => None,
    }
}

/// Reads the numbers of a line, as far as there are some.
fn numbers_at<'a>(numbers: &mut Vec<u64>, text: &'a [u8]) -> Result<&'a [u8], AllocError>
    ensures { IfOk result (λ rest. Fields numbers.new.items text.now rest.now × NoField rest.now) }
{
    numbers.clear();
    let mut rest = text;
    'fields: while let Some(number) = field_at(rest) {
        numbers.push(number.value)?;
        rest = number.rest;
    }
    Ok(rest)
}

/// The record of a word and what follows it.
pub(crate) fn record_at<'a>(
    numbers: &mut Vec<u64>,
    word: &[u8],
    text: &'a [u8],
) -> Result<Option<Found<'a>>, AllocError>
    ensures { IfOk result (λ r. MatchOption r (NoRecord word.now text.now) (λ f. RecordBehind word.now text.now f.words f.rest.now)) }
{
    let rest = numbers_at(numbers, text)?;
    let Some(rest) = line_end(rest) else {
        return Ok(None);
    };
    match record_by(word, numbers) {
        Some(words) => Ok(Some(Found { words, rest })),
        None => Ok(None),
    }
}

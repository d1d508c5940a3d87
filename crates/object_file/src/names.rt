//! Names.
ghost use Rattle.std.specs.Prelude.{◌≡◌, ◌++◌, ◌∷◌, [], map, Some, None, Option, List, ℕ};
ghost use Rattle.tx_code.specs.Objects.{bytes_of};
ghost use Rattle.tx_code.specs.WellFormed.{bytes_lt};
ghost use Rattle.object_file.specs.Reading.{Gives};
ghost use Rattle.object_bytes.specs.Decoder.{such_that, u32, raw, list};
ghost use Rattle.object_bytes.specs.Fields.{lent, above, is_name_length, text, name_item};

use crate::fault::ReadError;
use crate::numbers::{u32_at, wrong};
use std::alloc::Global;
use tx_code::LONGEST_NAME;

#[tactic(auto, unfolding(object_bytes::specs::Decoder::such_that))]
fn name_length_at(bytes: &[u8]) -> Result<(u32, &[u8]), ReadError>
    ensures { Gives (λ x. (x.0, x.1.now)) result (such_that u32 is_name_length bytes.now) }
{
    let (length, rest) = u32_at(bytes)?;
    if length == 0 || length > LONGEST_NAME {
        return Err(wrong(bytes));
    }
    Ok((length, rest))
}

#[tactic(auto, unfolding(object_bytes::specs::Decoder::raw))]
pub(crate) fn raw_at(count: usize, bytes: &[u8]) -> Result<(&[u8], &[u8]), ReadError>
    ensures { Gives (λ x. (x.0.now, x.1.now)) result (raw count bytes.now) }
{
    if bytes.len() < count {
        return Err(ReadError::Wrong(0));
    }
    Ok(bytes.split_at(count))
}

#[tactic(auto, unfolding(object_bytes::specs::Decoder::bind, object_bytes::specs::Fields::text))]
fn text_at(bytes: &[u8]) -> Result<(&[u8], &[u8]), ReadError>
    ensures { Gives (λ x. (x.0.now, x.1.now)) result (text bytes.now) }
{
    let (length, rest) = name_length_at(bytes)?;
    raw_at(length as usize, rest)
}

fn is_next(before: Option<&[u8]>, name: &[u8]) -> bool
    ensures { result ≡ above bytes_lt (lent before.entry) name.now }
{
    match before {
        None => true,
        Some(before) => before.cmp(name).is_lt(),
    }
}

#[tactic(auto, unfolding(object_bytes::specs::Decoder::such_that, object_bytes::specs::Fields::name_item))]
fn name_item_at<'a>(
    before: Option<&[u8]>,
    bytes: &'a [u8],
) -> Result<(&'a [u8], &'a [u8]), ReadError>
    ensures { Gives (λ x. (x.0.now, x.1.now)) result (name_item (lent before.entry) bytes.now) }
{
    let (name, rest) = text_at(bytes)?;
    if !is_next(before, name) {
        return Err(wrong(bytes));
    }
    Ok((name, rest))
}

#[tactic(auto, unfolding(object_bytes::specs::Decoder::bind, object_bytes::specs::Decoder::list))]
pub(crate) fn names_at(alloc: Global, bytes: &[u8]) -> Result<(Vec<Vec<u8>>, &[u8]), ReadError>
    ensures { Gives (λ x. (map bytes_of x.0.items, x.1.now)) result (list (λ name. name) name_item bytes.now) }
{
    let (count, mut rest) = u32_at(bytes)?;
    let mut names = Vec::new(alloc);
    let mut before = None;
    for _ in 0..count {
        let (text, after) = name_item_at(before, rest)?;
        let name = Vec::from_slice(alloc, text)?;
        names.push(name)?;
        before = Some(text);
        rest = after;
    }
    Ok((names, rest))
}

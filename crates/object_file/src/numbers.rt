//! Numbers and names.
ghost use Rattle.std.specs.Prelude.{◌≡◌, length, nat_lt};
ghost use Rattle.object_file.specs.declared.fault.ReadError.TheVariants.{Wrong};
ghost use Rattle.object_file.specs.Reading.{Gives};
ghost use Rattle.object_bytes.specs.Decoder.{such_that, u8, u32, u64};
ghost use Rattle.object_bytes.specs.Instructions.{name};
ghost use Rattle.object_bytes.specs.Fields.{name_or_none, next_name};

use crate::fault::ReadError;

/// The field that begins here is wrong.
pub(crate) fn wrong(bytes: &[u8]) -> ReadError
    ensures { result ≡ Wrong (length bytes.now) }
{
    ReadError::Wrong(bytes.len())
}

#[tactic(auto, unfolding(object_bytes::specs::Decoder::u8))]
pub(crate) fn u8_at(bytes: &[u8]) -> Result<(u8, &[u8]), ReadError>
    ensures { Gives (λ x. (x.0, x.1.now)) result (u8 bytes.now) }
{
    match bytes {
        [] => Err(ReadError::Wrong(0)),
        [byte, rest @ ..] => Ok((*byte, rest)),
    }
}

#[tactic(auto, unfolding(object_bytes::specs::Decoder::u32))]
pub(crate) fn u32_at(bytes: &[u8]) -> Result<(u32, &[u8]), ReadError>
    ensures { Gives (λ x. (x.0, x.1.now)) result (u32 bytes.now) }
{
    if bytes.len() < 4 {
        return Err(ReadError::Wrong(0));
    }
    let (front, rest) = bytes.split_at(4);
    let number = u32::from_le_bytes([front[0], front[1], front[2], front[3]]);
    Ok((number, rest))
}

#[tactic(auto, unfolding(object_bytes::specs::Decoder::u64))]
pub(crate) fn u64_at(bytes: &[u8]) -> Result<(u64, &[u8]), ReadError>
    ensures { Gives (λ x. (x.0, x.1.now)) result (u64 bytes.now) }
{
    if bytes.len() < 8 {
        return Err(ReadError::Wrong(0));
    }
    let (front, rest) = bytes.split_at(8);
    let number = u64::from_le_bytes([
        front[0], front[1], front[2], front[3], front[4], front[5], front[6], front[7],
    ]);
    Ok((number, rest))
}

#[tactic(auto, unfolding(object_bytes::specs::Decoder::such_that))]
pub(crate) fn name_at(names: usize, bytes: &[u8]) -> Result<(u32, &[u8]), ReadError>
    ensures { Gives (λ x. (x.0, x.1.now)) result (name names bytes.now) }
{
    let (name, rest) = u32_at(bytes)?;
    if name as usize >= names {
        return Err(wrong(bytes));
    }
    Ok((name, rest))
}

#[tactic(auto, unfolding(object_bytes::specs::Decoder::such_that))]
pub(crate) fn name_or_none_at(names: usize, bytes: &[u8]) -> Result<(u32, &[u8]), ReadError>
    ensures { Gives (λ x. (x.0, x.1.now)) result (name_or_none names bytes.now) }
{
    let (name, rest) = u32_at(bytes)?;
    if name as usize > names {
        return Err(wrong(bytes));
    }
    Ok((name, rest))
}

#[tactic(auto, unfolding(object_bytes::specs::Decoder::such_that))]
pub(crate) fn next_name_at(
    names: usize,
    before: Option<u32>,
    bytes: &[u8],
) -> Result<(u32, &[u8]), ReadError>
    ensures { Gives (λ x. (x.0, x.1.now)) result (next_name names before bytes.now) }
{
    let (name, rest) = name_at(names, bytes)?;
    if before.is_some_and(|before| before >= name) {
        return Err(wrong(bytes));
    }
    Ok((name, rest))
}

#[tactic(auto, unfolding(object_bytes::specs::Decoder::such_that))]
pub(crate) fn u8_below_at(limit: u8, bytes: &[u8]) -> Result<(u8, &[u8]), ReadError>
    ensures { Gives (λ x. (x.0, x.1.now)) result (such_that u8 (λ n. nat_lt n limit) bytes.now) }
{
    let (number, rest) = u8_at(bytes)?;
    if number >= limit {
        return Err(wrong(bytes));
    }
    Ok((number, rest))
}

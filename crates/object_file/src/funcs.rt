//! Functions.
ghost use Rattle.std.specs.Prelude.{◌≡◌, ◌&&◌, ◌||◌, ◌<◌, Bool, map, not, nat_eq, nat_lt};
ghost use Rattle.std.specs.Option.{option_map};
ghost use Rattle.tx_code.specs.Objects.{FuncView, func_view, body_view};
ghost use Rattle.tx_code.specs.WellFormed.{bit, same, flags_fit};
ghost use Rattle.object_file.specs.Reading.{Gives};
ghost use Rattle.object_bytes.specs.Decoder.{such_that, u8, u32, when, list};
ghost use Rattle.object_bytes.specs.Fields.{name_or_none, body, func};

use crate::bodies::body_at;
use crate::fault::ReadError;
use crate::numbers::{name_at, name_or_none_at, next_name_at, u8_at, u8_below_at, u32_at, wrong};
use std::alloc::Global;
use tx_code::{Body, ObjFunc};

fn has_bit(flags: u8, n: u8) -> bool
    requires { n < 2 }
    ensures { result ≡ bit n flags }
{
    if n == 0 {
        flags % 2 == 1
    } else {
        flags / 2 % 2 == 1
    }
}

fn are_flags(flags: u8) -> bool
    ensures { result ≡ flags_fit flags }
{
    flags < 16 && (!has_bit(flags, 1) || has_bit(flags, 0))
}

#[tactic(auto, unfolding(object_bytes::specs::Decoder::such_that))]
fn flags_at(bytes: &[u8]) -> Result<(u8, &[u8]), ReadError>
    ensures { Gives (λ x. (x.0, x.1.now)) result (such_that u8 flags_fit bytes.now) }
{
    let (flags, rest) = u8_at(bytes)?;
    if !are_flags(flags) {
        return Err(wrong(bytes));
    }
    Ok((flags, rest))
}

/// An inline definition has its text.
fn has_text(linkage: u8, flags: u8) -> bool
    ensures { result ≡ nat_eq linkage 2 && bit 0 flags }
{
    linkage == 2 && has_bit(flags, 0)
}

/// The text of a function: an inline definition has one.
#[tactic(auto, unfolding(object_bytes::specs::Decoder::such_that))]
fn definition_at(
    names: usize,
    linkage: u8,
    flags: u8,
    bytes: &[u8],
) -> Result<(u32, &[u8]), ReadError>
    ensures { Gives (λ x. (x.0, x.1.now)) result (such_that (name_or_none names) (λ t. same (nat_eq linkage 2 && bit 0 flags) (nat_lt 0 t)) bytes.now) }
{
    let (text, rest) = name_or_none_at(names, bytes)?;
    if has_text(linkage, flags) != (text > 0) {
        return Err(wrong(bytes));
    }
    Ok((text, rest))
}

#[tactic(auto, unfolding(object_bytes::specs::Decoder::such_that))]
fn frame_at(flags: u8, bytes: &[u8]) -> Result<(u32, &[u8]), ReadError>
    ensures { Gives (λ x. (x.0, x.1.now)) result (such_that u32 (λ f. bit 0 flags || nat_eq f 0) bytes.now) }
{
    let (frame, rest) = u32_at(bytes)?;
    if !has_bit(flags, 0) && frame != 0 {
        return Err(wrong(bytes));
    }
    Ok((frame, rest))
}

#[tactic(auto, unfolding(object_bytes::specs::Decoder::bind, object_bytes::specs::Decoder::done, object_bytes::specs::Decoder::when))]
fn some_body_at(
    alloc: Global,
    version: u32,
    names: usize,
    is_there: bool,
    bytes: &[u8],
) -> Result<(Option<Body>, &[u8]), ReadError>
    ensures { Gives (λ x. (option_map body_view x.0, x.1.now)) result (when is_there (body version names) bytes.now) }
{
    if !is_there {
        return Ok((None, bytes));
    }
    let (body, rest) = body_at(alloc, version, names, bytes)?;
    Ok((Some(body), rest))
}

#[tactic(auto, unfolding(object_bytes::specs::Decoder::bind, object_bytes::specs::Decoder::done, object_bytes::specs::Fields::func))]
fn func_at(
    alloc: Global,
    version: u32,
    names: usize,
    before: Option<u32>,
    bytes: &[u8],
) -> Result<(ObjFunc, &[u8]), ReadError>
    ensures { Gives (λ x. (func_view x.0, x.1.now)) result (func version names before bytes.now) }
{
    let (symbol, rest) = next_name_at(names, before, bytes)?;
    let (ty, rest) = name_at(names, rest)?;
    let (linkage, rest) = u8_below_at(3, rest)?;
    let (flags, rest) = flags_at(rest)?;
    let (text, rest) = definition_at(names, linkage, flags, rest)?;
    let (frame, rest) = frame_at(flags, rest)?;
    let (plain, rest) = some_body_at(alloc, version, names, has_bit(flags, 0), rest)?;
    let (safe, rest) = some_body_at(alloc, version, names, has_bit(flags, 1), rest)?;
    Ok((
        ObjFunc {
            symbol,
            ty,
            linkage,
            flags,
            text,
            frame,
            plain,
            safe,
        },
        rest,
    ))
}

#[tactic(auto, unfolding(object_bytes::specs::Decoder::bind, object_bytes::specs::Decoder::list))]
pub(crate) fn funcs_at(
    alloc: Global,
    version: u32,
    names: usize,
    bytes: &[u8],
) -> Result<(Vec<ObjFunc>, &[u8]), ReadError>
    ensures { Gives (λ x. (map func_view x.0.items, x.1.now)) result (list (λ (f : FuncView). f.symbol) (func version names) bytes.now) }
{
    let (count, mut rest) = u32_at(bytes)?;
    let mut funcs = Vec::new(alloc);
    let mut before = None;
    for _ in 0..count {
        let (func, after) = func_at(alloc, version, names, before, rest)?;
        before = Some(func.symbol);
        funcs.push(func)?;
        rest = after;
    }
    Ok((funcs, rest))
}

//! The fields of an object.
ghost use Rattle.std.specs.Prelude.{◌≡◌, ◌||◌, map, length, nat_eq};
ghost use Rattle.std.specs.Option.{option_map};
ghost use Rattle.std.specs.Str.{bytes_eq};
ghost use Rattle.tx_code.specs.Objects.{ClassView, GlobalView, FuncView, bytes_of, class_view, global_view, func_view, object_view};
ghost use Rattle.object_bytes.specs.Spelling.{magic};
ghost use Rattle.object_file.specs.Reading.{Gives};
ghost use Rattle.object_bytes.specs.Decoder.{such_that, u32, raw, list};
ghost use Rattle.object_bytes.specs.Fields.{class, global, func};
ghost use Rattle.object_bytes.specs.Objects.{source_field, entries, object};

use crate::classes::classes_at;
use crate::fault::ReadError;
use crate::funcs::funcs_at;
use crate::globals::globals_at;
use crate::names::{names_at, raw_at};
use crate::numbers::{name_or_none_at, u32_at, wrong};
use object_bytes::source_name;
use std::alloc::Global;
use tx_code::{ObjClass, ObjFunc, ObjGlobal, Object};

#[tactic(auto, unfolding(object_bytes::specs::Decoder::such_that))]
fn head_at(bytes: &[u8]) -> Result<(&[u8], &[u8]), ReadError>
    ensures { Gives (λ x. (x.0.now, x.1.now)) result (such_that (raw 4) (λ b. bytes_eq b magic) bytes.now) }
{
    let (head, rest) = raw_at(4, bytes)?;
    if head != b"TXOB".as_slice() {
        return Err(wrong(bytes));
    }
    Ok((head, rest))
}

#[tactic(auto, unfolding(object_bytes::specs::Decoder::such_that))]
fn version_at(bytes: &[u8]) -> Result<(u32, &[u8]), ReadError>
    ensures { Gives (λ x. (x.0, x.1.now)) result (such_that u32 (λ v. nat_eq v 1 || nat_eq v 2) bytes.now) }
{
    let (version, rest) = u32_at(bytes)?;
    if version != 1 && version != 2 {
        return Err(wrong(bytes));
    }
    Ok((version, rest))
}

fn count_of(names: &[Vec<u8>]) -> usize
    ensures { result ≡ length (map bytes_of names.now) }
{
    names.len()
}

#[tactic(auto, unfolding(object_bytes::specs::Decoder::bind, object_bytes::specs::Decoder::done, object_bytes::specs::Objects::source_field))]
fn source_at<'a>(
    alloc: Global,
    version: u32,
    names: &[Vec<u8>],
    bytes: &'a [u8],
) -> Result<(Option<Vec<u8>>, &'a [u8]), ReadError>
    ensures { Gives (λ x. (option_map bytes_of x.0, x.1.now)) result (source_field version (map bytes_of names.now) bytes.now) }
{
    if version != 2 {
        return Ok((None, bytes));
    }
    let (number, rest) = name_or_none_at(count_of(names), bytes)?;
    let source = source_name(alloc, names, number)?;
    Ok((source, rest))
}

fn classes_of<'a>(
    alloc: Global,
    names: &[Vec<u8>],
    bytes: &'a [u8],
) -> Result<(Vec<ObjClass>, &'a [u8]), ReadError>
    ensures { Gives (λ x. (map class_view x.0.items, x.1.now)) result (list (λ (c : ClassView). c.name) (class (length (map bytes_of names.now))) bytes.now) }
{
    classes_at(alloc, count_of(names), bytes)
}

fn globals_of<'a>(
    alloc: Global,
    names: &[Vec<u8>],
    bytes: &'a [u8],
) -> Result<(Vec<ObjGlobal>, &'a [u8]), ReadError>
    ensures { Gives (λ x. (map global_view x.0.items, x.1.now)) result (list (λ (g : GlobalView). g.symbol) (global (length (map bytes_of names.now))) bytes.now) }
{
    globals_at(alloc, count_of(names), bytes)
}

fn funcs_of<'a>(
    alloc: Global,
    version: u32,
    names: &[Vec<u8>],
    bytes: &'a [u8],
) -> Result<(Vec<ObjFunc>, &'a [u8]), ReadError>
    ensures { Gives (λ x. (map func_view x.0.items, x.1.now)) result (list (λ (f : FuncView). f.symbol) (func version (length (map bytes_of names.now))) bytes.now) }
{
    funcs_at(alloc, version, count_of(names), bytes)
}

#[tactic(auto, unfolding(object_bytes::specs::Decoder::bind, object_bytes::specs::Decoder::done, object_bytes::specs::Objects::entries))]
fn entries_at(
    alloc: Global,
    version: u32,
    names: Vec<Vec<u8>>,
    source: Option<Vec<u8>>,
    bytes: &[u8],
) -> Result<(Object, &[u8]), ReadError>
    ensures { Gives (λ x. (object_view x.0, x.1.now)) result (entries version (map bytes_of names.items) (option_map bytes_of source) bytes.now) }
{
    let (classes, rest) = classes_of(alloc, &names, bytes)?;
    let (globals, rest) = globals_of(alloc, &names, rest)?;
    let (funcs, rest) = funcs_of(alloc, version, &names, rest)?;
    Ok((
        Object {
            version,
            names,
            source,
            classes,
            globals,
            funcs,
        },
        rest,
    ))
}

#[tactic(auto, unfolding(object_bytes::specs::Decoder::bind, object_bytes::specs::Objects::object))]
pub(crate) fn object_at(alloc: Global, bytes: &[u8]) -> Result<(Object, &[u8]), ReadError>
    ensures { Gives (λ x. (object_view x.0, x.1.now)) result (object bytes.now) }
{
    let (_, rest) = head_at(bytes)?;
    let (version, rest) = version_at(rest)?;
    let (names, rest) = names_at(alloc, rest)?;
    let (source, rest) = source_at(alloc, version, &names, rest)?;
    entries_at(alloc, version, names, source, rest)
}

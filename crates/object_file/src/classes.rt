//! Classes.
ghost use Rattle.std.specs.Prelude.{◌≡◌, map};
ghost use Rattle.tx_code.specs.Objects.{ClassView, class_view};
ghost use Rattle.object_file.specs.Reading.{Gives};
ghost use Rattle.object_bytes.specs.Decoder.{each, list};
ghost use Rattle.object_bytes.specs.Instructions.{name};
ghost use Rattle.object_bytes.specs.Fields.{name_or_none, member, class};

use crate::fault::ReadError;
use crate::numbers::{name_at, name_or_none_at, next_name_at, u32_at};
use std::alloc::Global;
use tx_code::{ObjClass, ObjMember};

#[tactic(auto, unfolding(object_bytes::specs::Decoder::bind, object_bytes::specs::Decoder::done, object_bytes::specs::Fields::member))]
fn member_at(names: usize, bytes: &[u8]) -> Result<(ObjMember, &[u8]), ReadError>
    ensures { Gives (λ x. (x.0, x.1.now)) result (member names bytes.now) }
{
    let (name, rest) = name_at(names, bytes)?;
    let (offset, rest) = u32_at(rest)?;
    let (ty, rest) = name_at(names, rest)?;
    Ok((ObjMember { name, offset, ty }, rest))
}

#[tactic(auto, unfolding(object_bytes::specs::Decoder::bind, object_bytes::specs::Decoder::done, object_bytes::specs::Decoder::list))]
fn members_at(
    alloc: Global,
    names: usize,
    bytes: &[u8],
) -> Result<(Vec<ObjMember>, &[u8]), ReadError>
    ensures { Gives (λ x. (x.0.items, x.1.now)) result (each (member names) bytes.now) }
{
    let (count, mut rest) = u32_at(bytes)?;
    let mut members = Vec::new(alloc);
    for _ in 0..count {
        let (member, after) = member_at(names, rest)?;
        members.push(member)?;
        rest = after;
    }
    Ok((members, rest))
}

#[tactic(auto, unfolding(object_bytes::specs::Decoder::bind, object_bytes::specs::Decoder::done, object_bytes::specs::Decoder::list))]
fn slots_at(alloc: Global, names: usize, bytes: &[u8]) -> Result<(Vec<u32>, &[u8]), ReadError>
    ensures { Gives (λ x. (x.0.items, x.1.now)) result (each (name_or_none names) bytes.now) }
{
    let (count, mut rest) = u32_at(bytes)?;
    let mut slots = Vec::new(alloc);
    for _ in 0..count {
        let (slot, after) = name_or_none_at(names, rest)?;
        slots.push(slot)?;
        rest = after;
    }
    Ok((slots, rest))
}

#[tactic(auto, unfolding(object_bytes::specs::Decoder::bind, object_bytes::specs::Decoder::done, object_bytes::specs::Fields::class))]
fn class_at(
    alloc: Global,
    names: usize,
    before: Option<u32>,
    bytes: &[u8],
) -> Result<(ObjClass, &[u8]), ReadError>
    ensures { Gives (λ x. (class_view x.0, x.1.now)) result (class names before bytes.now) }
{
    let (name, rest) = next_name_at(names, before, bytes)?;
    let (size, rest) = u32_at(rest)?;
    let (align, rest) = u32_at(rest)?;
    let (base, rest) = name_or_none_at(names, rest)?;
    let (pointer, rest) = u32_at(rest)?;
    let (text, rest) = name_at(names, rest)?;
    let (members, rest) = members_at(alloc, names, rest)?;
    let (slots, rest) = slots_at(alloc, names, rest)?;
    Ok((
        ObjClass {
            name,
            size,
            align,
            base,
            pointer,
            text,
            members,
            slots,
        },
        rest,
    ))
}

#[tactic(auto, unfolding(object_bytes::specs::Decoder::bind, object_bytes::specs::Decoder::list))]
pub(crate) fn classes_at(
    alloc: Global,
    names: usize,
    bytes: &[u8],
) -> Result<(Vec<ObjClass>, &[u8]), ReadError>
    ensures { Gives (λ x. (map class_view x.0.items, x.1.now)) result (list (λ (c : ClassView). c.name) (class names) bytes.now) }
{
    let (count, mut rest) = u32_at(bytes)?;
    let mut classes = Vec::new(alloc);
    let mut before = None;
    for _ in 0..count {
        let (class, after) = class_at(alloc, names, before, rest)?;
        before = Some(class.name);
        classes.push(class)?;
        rest = after;
    }
    Ok((classes, rest))
}

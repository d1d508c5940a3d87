//! Reading.
ghost use Rattle.std.specs.Prelude.{◌≡◌, ◌<◌, ◌+◌, ◌-◌, ◌^◌, ℕ, Ok, Err, map, length, nat_eq, IfOk, if◌then◌else◌};
ghost use Rattle.std.specs.List.{flat_map};
ghost use Rattle.std.specs.Option.{option_map};
ghost use Rattle.tx_code.specs.Objects.{ObjectView, bytes_of, object_view};
ghost use Rattle.object_bytes.specs.Spelling.{Spells, name_bytes, source_bytes, object_bytes};
ghost use Rattle.object_bytes.specs.Objects.{first_class, wrong_as_a_whole, unless_wrong, decoded};
ghost use Rattle.object_file.specs.Answers.{IsSmall, IsAnswer, IsObjectOrMemory, IsFirstWrong};

use crate::fault::{ObjectFault, ReadError};
use crate::object::object_at;
use object_bytes::{first_unused, first_wrong_base, name_size, names_used};
use std::alloc::{AllocError, Global};
use tx_code::Object;

/// How many bytes spell the names.
fn names_size(names: &[Vec<u8>]) -> u64
    requires { length (flat_map name_bytes (map bytes_of names.now)) < 2 ^ 63 }
    ensures { result ≡ length (flat_map name_bytes (map bytes_of names.now)) }
{
    let mut size = 0;
    for name in names {
        size += name_size(name);
    }
    size
}

/// How many bytes spell the source.
fn source_size(version: u32) -> u64
    ensures { result ≡ (if nat_eq version 2 then 4 else 0) }
{
    if version == 2 { 4 } else { 0 }
}

/// Where the first class stands.
#[tactic(auto, unfolding(object_bytes::specs::Objects::first_class))]
fn first_class(object: &Object) -> u64
    requires { IsSmall (object_view object.now) }
    ensures { result ≡ first_class (object_view object.now) }
{
    12 + names_size(&object.names) + source_size(object.version) + 4
}

/// Where the first field stands that is wrong only where all else is right.
#[tactic(auto, unfolding(object_bytes::specs::Objects::wrong_as_a_whole))]
fn wrong_as_a_whole(alloc: Global, object: &Object) -> Result<Option<u64>, AllocError>
    requires { IsSmall (object_view object.now) }
    ensures { IfOk result (λ at. at ≡ wrong_as_a_whole (object_view object.now)) }
{
    let used = names_used(alloc, object)?;
    if let Some(at) = first_unused(alloc, &object.source, &used, &object.names, 12)? {
        return Ok(Some(at));
    }
    first_wrong_base(alloc, &object.classes, first_class(object))
}

/// Where a field stands, if so many bytes are left from it on.
fn position(size: usize, left: usize) -> u64
    ensures { result ≡ size - left }
{
    size.saturating_sub(left) as u64
}

fn finished(alloc: Global, object: Object) -> Result<Object, ObjectFault>
    requires { IsSmall (object_view object) }
    ensures { IsAnswer result (unless_wrong (object_view object) (wrong_as_a_whole (object_view object))) }
{
    match wrong_as_a_whole(alloc, &object) {
        Err(_) => Err(ObjectFault::Memory),
        Ok(Some(at)) => Err(ObjectFault::BadObject { at }),
        Ok(None) => Ok(object),
    }
}

fn is_end(rest: &[u8]) -> bool
    ensures { result ≡ nat_eq (length rest.now) 0 }
{
    rest.is_empty()
}

/// Reads all of the bytes.
#[tactic(auto, unfolding(object_bytes::specs::Objects::decoded))]
fn read_all(alloc: Global, bytes: &[u8]) -> Result<Object, ObjectFault>
    ensures { IsAnswer result (decoded bytes.now) }
{
    match object_at(alloc, bytes) {
        Err(ReadError::Memory) => Err(ObjectFault::Memory),
        Err(ReadError::Wrong(left)) => Err(ObjectFault::BadObject {
            at: position(bytes.len(), left),
        }),
        Ok((object, rest)) => {
            if !is_end(rest) {
                return Err(ObjectFault::BadObject {
                    at: position(bytes.len(), rest.len()),
                });
            }
            finished(alloc, object)
        }
    }
}

/// The object that the bytes spell, all of them. `BadObject` comes exactly where they spell none.
pub fn read(alloc: Global, bytes: &[u8]) -> Result<Object, ObjectFault>
    // The bytes spell what is read.
    ensures object { IfOk result (λ object. Spells (object_view object) bytes.now) }
    // What the bytes spell is read, unless memory runs out.
    ensures only { (o : ObjectView) → Spells o bytes.now → IsObjectOrMemory result o }
    // A fault stands at the first byte of the first wrong field.
    ensures fault { IsFirstWrong result bytes.now }
{
    read_all(alloc, bytes)
}

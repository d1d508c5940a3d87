//! Whole objects.
ghost use Rattle.std.specs.Prelude.{◌≡◌, ◌||◌, map, nat_eq, IsTrue, IfOk};
ghost use Rattle.std.specs.List.{list_all, list_any};
ghost use Rattle.std.specs.Str.{bytes_eq};
ghost use Rattle.std.specs.Option.{option_map};
ghost use Rattle.tx_code.specs.Objects.{bytes_of, object_view};
ghost use Rattle.tx_code.specs.WellFormed.{is_length as is_length_of, source_fits as fits_source, IsObject};

use crate::bodies::is_count;
use crate::entries::{classes_fit, funcs_fit, globals_fit};
use crate::order::{classes_ascend, funcs_ascend, globals_ascend, names_ascend};
use object_bytes::is_whole;
use std::alloc::{AllocError, Global};
use tx_code::{LONGEST_NAME, Object};

fn is_length(name: &[u8]) -> bool
    ensures { result ≡ is_length_of name.now }
{
    name.len() > 0 && name.len() <= LONGEST_NAME as usize
}

fn are_lengths(names: &[Vec<u8>]) -> bool
    ensures { result ≡ list_all is_length_of (map bytes_of names.now) }
{
    for name in names {
        if !is_length(name) {
            return false;
        }
    }
    true
}

fn is_among(names: &[Vec<u8>], source: &[u8]) -> bool
    ensures { result ≡ list_any (bytes_eq source.now) (map bytes_of names.now) }
{
    for name in names {
        if source == name.as_slice() {
            return true;
        }
    }
    false
}

fn source_fits(version: u32, names: &[Vec<u8>], source: &Option<Vec<u8>>) -> bool
    ensures { result ≡ fits_source version (map bytes_of names.now) (option_map bytes_of source.now) }
{
    match source {
        None => true,
        Some(source) => version == 2 && is_among(names, source),
    }
}

fn is_version(version: u32) -> bool
    ensures { result ≡ (nat_eq version 1 || nat_eq version 2) }
{
    version == 1 || version == 2
}

/// Whether some bytes spell the object: names, entries and bodies are as the object format wants them. Want of memory is
/// the only other answer.
pub fn is_object(alloc: Global, object: &Object) -> Result<bool, AllocError>
    ensures { IfOk result (λ b. IsTrue b → IsObject (object_view object.now)) }
{
    let names = object.names.len();
    if !is_version(object.version) || !is_count(names) {
        return Ok(false);
    }
    if !are_lengths(&object.names) || !names_ascend(&object.names) {
        return Ok(false);
    }
    if !source_fits(object.version, &object.names, &object.source) {
        return Ok(false);
    }
    if !is_count(object.classes.len()) || !classes_fit(names, &object.classes) {
        return Ok(false);
    }
    if !is_count(object.globals.len()) || !globals_fit(names, &object.globals) {
        return Ok(false);
    }
    if !is_count(object.funcs.len()) || !funcs_fit(object.version, names, &object.funcs) {
        return Ok(false);
    }
    if !classes_ascend(&object.classes)
        || !globals_ascend(&object.globals)
        || !funcs_ascend(&object.funcs)
    {
        return Ok(false);
    }
    is_whole(alloc, object)
}

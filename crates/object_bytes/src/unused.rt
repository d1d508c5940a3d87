//! Unused names.
ghost use Rattle.std.specs.Prelude.{◌≡◌, ◌<◌, ◌+◌, ◌^◌, ◌||◌, ℕ, Bool, false, map, length, nat_eq, get_or, IfOk};
ghost use Rattle.std.specs.List.{flat_map, list_any};
ghost use Rattle.std.specs.Option.{option_map};
ghost use Rattle.tx_code.specs.Objects.{bytes_of};
ghost use Rattle.tx_code.specs.WellFormed.{is_source, all_used};
ghost use Rattle.object_bytes.specs.Spelling.{name_bytes};
ghost use Rattle.object_bytes.specs.Objects.{unused_from};
ghost use Rattle.object_bytes.specs.Chains.{AreMarks};

use std::alloc::{AllocError, Global};

/// How many bytes spell a name.
pub fn name_size(name: &[u8]) -> u64
    ensures { result ≡ length (name_bytes name.now) }
{
    4 + name.len() as u64
}

/// Whether each of so many names is among those used.
fn marks(alloc: Global, count: usize, used: &[u32]) -> Result<Vec<bool>, AllocError>
    ensures { IfOk result (λ v. AreMarks count used.now v.items) }
{
    let mut marks = vec![in alloc; false; count]?;
    for name in used {
        let name = *name as usize;
        if name < count {
            marks[name] = true;
        }
    }
    Ok(marks)
}

fn is_source_name(source: &Option<Vec<u8>>, name: &[u8]) -> bool
    ensures { result ≡ is_source (option_map bytes_of source.now) name.now }
{
    match source {
        None => false,
        Some(source) => name == source.as_slice(),
    }
}

fn is_used(marks: &[bool], i: usize, source: &Option<Vec<u8>>, name: &[u8]) -> bool
    requires { i < length marks.now }
    ensures { result ≡ (get_or marks.now i false || is_source (option_map bytes_of source.now) name.now) }
{
    marks[i] || is_source_name(source, name)
}

/// Where the first name stands that is not used, if the first name stands at `start`.
pub fn first_unused(
    alloc: Global,
    source: &Option<Vec<u8>>,
    used: &[u32],
    names: &[Vec<u8>],
    start: u64,
) -> Result<Option<u64>, AllocError>
    requires { start + length (flat_map name_bytes (map bytes_of names.now)) < 2 ^ 63 }
    ensures { IfOk result (λ r. r ≡ unused_from (option_map bytes_of source.now) used.now 0 start (map bytes_of names.now)) }
{
    let marks = marks(alloc, names.len(), used)?;
    let mut at = start;
    for (i, name) in names.iter().enumerate() {
        if !is_used(&marks, i, source, name) {
            return Ok(Some(at));
        }
        at += name_size(name);
    }
    Ok(None)
}

/// Whether each name is used.
pub(crate) fn all_used(
    alloc: Global,
    source: &Option<Vec<u8>>,
    used: &[u32],
    names: &[Vec<u8>],
) -> Result<bool, AllocError>
    ensures { IfOk result (λ r. r ≡ all_used (option_map bytes_of source.now) used.now 0 (map bytes_of names.now)) }
{
    let marks = marks(alloc, names.len(), used)?;
    for (i, name) in names.iter().enumerate() {
        if !is_used(&marks, i, source, name) {
            return Ok(false);
        }
    }
    Ok(true)
}

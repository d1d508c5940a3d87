//! The source of an object.
ghost use Rattle.std.specs.Prelude.{◌≡◌, map, None, Some, MatchOption, slice_get, IfOk};
ghost use Rattle.std.specs.Option.{option_map};
ghost use Rattle.tx_code.specs.Objects.{bytes_of};
ghost use Rattle.object_bytes.specs.Objects.{source_of};

use std::alloc::{AllocError, Global};

fn name_in(names: &[Vec<u8>], i: usize) -> Option<&Vec<u8>>
    ensures { MatchOption result (slice_get (map bytes_of names.now) i ≡ None) (λ name. slice_get (map bytes_of names.now) i ≡ Some (name.now.items)) }
{
    names.get(i)
}

/// The name with this number minus 1, or none where it is 0.
pub fn source_name(
    alloc: Global,
    names: &[Vec<u8>],
    number: u32,
) -> Result<Option<Vec<u8>>, AllocError>
    ensures { IfOk result (λ s. option_map bytes_of s ≡ source_of (map bytes_of names.now) number) }
{
    if number == 0 {
        return Ok(None);
    }
    match name_in(names, number as usize - 1) {
        Some(name) => Ok(Some(Vec::from_slice(alloc, name)?)),
        None => Ok(None),
    }
}

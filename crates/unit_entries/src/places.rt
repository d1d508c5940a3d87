//! Places in lists of names.
ghost use Rattle.std.specs.Prelude.{◌≡◌, true, map, Some, IfOk};
ghost use Rattle.tx_code.specs.Objects.{bytes_of};
ghost use Rattle.tx_code.specs.Linked.{name_in};
ghost use Rattle.link_faults.specs.Faults.{text_in};
ghost use Rattle.unit_entries.specs.Records.{naming};

use std::alloc::AllocError;

// Where a name may stand among names in the order of their bytes: a binary search.
fn near(names: &[Vec<u8>], name: &[u8]) -> usize {
    let mut low = 0;
    let mut high = names.len();
    for _ in 0..64 {
        if low >= high {
            return low;
        }
        let middle = low + (high - low) / 2;
        let Some(other) = names.get(middle) else {
            return low;
        };
        if other.as_slice().cmp(name).is_lt() {
            low = middle + 1;
        } else {
            high = middle;
        }
    }
    low
}

// Whether a name has these bytes.
fn is_name(name: &Vec<u8>, bytes: &[u8]) -> bool
    ensures { result ≡ true → name.now.items ≡ bytes.now }
{
    name.as_slice() == bytes
}

// Whether a name stands at a place.
fn is_at(names: &[Vec<u8>], place: usize, name: &[u8]) -> bool
    ensures { result ≡ true → name_in (naming (map bytes_of names.now)) place ≡ name.now }
{
    match names.get(place) {
        Some(found) => is_name(found, name),
        None => false,
    }
}

/// The place of a name among names in the order of their bytes. One that is not there counts as want of memory.
pub fn place_of(names: &[Vec<u8>], name: &[u8]) -> Result<u32, AllocError>
    ensures { IfOk result (λ n. name_in (naming (map bytes_of names.now)) n ≡ name.now) }
{
    let place = near(names, name);
    if !is_at(names, place, name) {
        return Err(AllocError);
    }
    match u32::try_from(place) {
        Ok(number) => Ok(number),
        Err(_) => Err(AllocError),
    }
}

/// The same and 1, as an object has a name that may be there.
pub fn place_and_one(names: &[Vec<u8>], name: &[u8]) -> Result<u32, AllocError>
    ensures { IfOk result (λ n. text_in (naming (map bytes_of names.now)) n ≡ Some name.now) }
{
    let place = place_of(names, name)?;
    match place.checked_add(1) {
        Some(next) => Ok(next),
        None => Err(AllocError),
    }
}

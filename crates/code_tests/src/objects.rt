// Objects and their bytes.

use object_file::{ObjectFault, read, write};
use std::alloc::{AllocError, Global};

// How bytes are answered.
#[derive(Clone, Copy, PartialEq, Eq, Debug)]
enum Outcome {
    // An object, of which the same bytes are written.
    Same,
    // An object, of which other bytes are written.
    Differs,
    // The fault stands here.
    Wrong(u64),
    Memory,
}

fn answer_to(alloc: Global, bytes: &[u8]) -> Outcome {
    match read(alloc, bytes) {
        Ok(object) => match write(alloc, &object) {
            Ok(written) if written.as_slice() == bytes => Outcome::Same,
            Ok(_) => Outcome::Differs,
            Err(_) => Outcome::Memory,
        },
        Err(ObjectFault::BadObject { at }) => Outcome::Wrong(at),
        Err(ObjectFault::Memory) => Outcome::Memory,
    }
}

/// How bytes are answered.
pub fn answer(alloc: Global, bytes: &[u8]) -> Result<String, AllocError> {
    format!(in alloc; "{:?}", answer_to(alloc, bytes))
}

/// How many fronts of the bytes are refused at their end, of how many.
pub fn fronts(alloc: Global, bytes: &[u8]) -> Result<String, AllocError> {
    let mut count = 0u64;
    for length in 0..bytes.len() {
        let front = bytes.get(..length).unwrap_or(b"");
        if answer_to(alloc, front) == Outcome::Wrong(length as u64) {
            count = count.saturating_add(1);
        }
    }
    format!(in alloc; "{count} of {}", bytes.len())
}

// The bytes with another byte at an index.
fn changed(alloc: Global, bytes: &[u8], at: usize, byte: u8) -> Result<Vec<u8>, AllocError> {
    let mut all = Vec::from_slice(alloc, bytes)?;
    if let Some(place) = all.get_mut(at) {
        *place = byte;
    }
    Ok(all)
}

/// How many of the bytes with one byte changed are an object of which the same bytes are written, or refused.
pub fn changes(alloc: Global, bytes: &[u8]) -> Result<String, AllocError> {
    let mut count = 0u64;
    for at in 0..bytes.len() {
        for byte in 0..=255_u8 {
            let other = changed(alloc, bytes, at, byte)?;
            if matches!(answer_to(alloc, &other), Outcome::Same | Outcome::Wrong(_)) {
                count = count.saturating_add(1);
            }
        }
    }
    format!(in alloc; "{count}")
}

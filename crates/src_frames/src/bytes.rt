//! The bytes of exceptions.

ghost use Rattle.std.specs.Prelude.{◌≡◌, slice_set, slice_index_or};
ghost use Rattle.cpp_tree.specs.cpp_layout.Layout.{kind_size};
ghost use Rattle.src_mean.specs.Exceptions.{bytes_of, with_bytes as bytes_put, read_bytes as bytes_read};

use crate::words::size_of_kind;
use cpp_tree::below::{EXCEPTION_SIZE, IntKind};

/// The bytes with those of a number of a kind from an offset on, the least significant first.
pub fn with_bytes(
    bytes: [u8; EXCEPTION_SIZE],
    offset: u32,
    kind: IntKind,
    word: u64,
) -> [u8; EXCEPTION_SIZE]
    ensures { result ≡ bytes_put offset (bytes_of (kind_size kind) word) bytes }
{
    let mut out = bytes;
    let mut left = word;
    let size = size_of_kind(kind);
    for i in 0..size {
        put(
            &mut out,
            offset as usize + usize::from(i),
            (left % 256) as u8,
        );
        left /= 256;
    }
    out
}

// Writes a byte where there is one.
fn put(bytes: &mut [u8], place: usize, byte: u8)
    ensures { bytes.new ≡ slice_set bytes.old place byte }
{
    if place < bytes.len() {
        bytes[place] = byte;
    }
}

/// The number of a kind that the bytes have from an offset on.
pub fn read_bytes(bytes: &[u8], offset: u32, kind: IntKind) -> u64
    ensures { result ≡ bytes_read bytes.now offset (kind_size kind) }
{
    let size = size_of_kind(kind);
    let mut word = 0u64;
    for i in 0..size {
        let place = offset as usize + usize::from(size - 1 - i);
        word = word
            .wrapping_mul(256)
            .wrapping_add(u64::from(byte_at(bytes, place)));
    }
    word
}

// The byte at a place, or 0.
fn byte_at(bytes: &[u8], place: usize) -> u8
    ensures { result ≡ slice_index_or bytes.now place 0 }
{
    match bytes.get(place) {
        Some(byte) => *byte,
        None => 0,
    }
}

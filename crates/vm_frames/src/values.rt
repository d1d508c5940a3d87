//! Numbers as words, as bytes in memory and as bytes of exceptions.
ghost use Rattle.std.specs.Prelude.{◌≡◌, ◌<◌, ◌≤◌, ◌*◌, ◌^◌, slice_index_or, slice_set};
ghost use Rattle.tx_ints.specs.Words.{word_of, value_of_word};
ghost use Rattle.tx_code.specs.Meaning.{loaded, answered, bits_of, put_bytes, get_bytes, new_exception, with_number, number_in};
ghost use Rattle.vm_frames.specs.Frames.{exception_of};

use crate::parts::Exception;
use tx_code::size;
use tx_events::{EXCEPTION_SIZE, Reply};
use tx_ints::{IntKind, value_of_word, word_of};

/// The bytes that a reply has read, as one number.
pub fn loaded(reply: Reply) -> u64
    ensures { result ≡ loaded reply }
{
    match reply {
        Reply::Loaded { value } => value,
        Reply::Nothing | Reply::Byte { value: _ } | Reply::Id { id: _ } => 0,
    }
}

/// The byte or the number of a thread that a reply has.
pub fn answered(reply: Reply) -> i32
    ensures { result ≡ answered reply }
{
    match reply {
        Reply::Byte { value } => value,
        Reply::Id { id } => id,
        Reply::Nothing | Reply::Loaded { value: _ } => 0,
    }
}

/// The bytes that a word has in memory as a number of a kind.
pub fn bits(kind: IntKind, word: u64) -> u64
    ensures { result ≡ bits_of kind (value_of_word kind word) }
{
    match kind {
        IntKind::Bool => { if word == 0 { 0 } else { 1 } }
        IntKind::Char | IntKind::SChar | IntKind::UChar => word % 256,
        IntKind::Short | IntKind::UShort => word % 65536,
        IntKind::Int | IntKind::UInt => word % 4294967296,
        IntKind::Long | IntKind::ULong | IntKind::LLong | IntKind::ULLong => word,
    }
}

// Writes a byte where there is one.
fn put_byte(bytes: &mut [u8], at: usize, byte: u8)
    ensures { bytes.new ≡ slice_set bytes.old at byte }
{
    if at < bytes.len() {
        bytes[at] = byte;
    }
}

// Writes the bytes of a number from a position on, the least significant first.
fn put_bytes(bytes: &mut [u8], at: usize, count: u8, value: u64)
    requires { at ≤ 255 }
    ensures { bytes.new ≡ put_bytes bytes.old at count value }
{
    let mut rest = value;
    for i in 0..count {
        put_byte(bytes, at + usize::from(i), (rest % 256) as u8);
        rest /= 256;
    }
}

// The byte at a position, or 0.
fn byte_at(bytes: &[u8], at: usize) -> u8
    ensures { result ≡ slice_index_or bytes.now at 0 }
{
    match bytes.get(at) {
        Some(byte) => *byte,
        None => 0,
    }
}

// Reads the bytes of a number from a position on.
fn get_bytes(bytes: &[u8], at: usize, count: u8) -> u64
    requires at { at ≤ 255 }
    requires few { count ≤ 8 }
    ensures is { result ≡ get_bytes bytes.now at count }
    ensures bound { result < 256 ^ count }
{
    let mut value = 0;
    for i in 0..count {
        value = value * 256 + u64::from(byte_at(bytes, at + usize::from(count - 1 - i)));
    }
    value
}

/// An exception of zero bytes.
pub fn zeros(ty: u32) -> Exception
    ensures { exception_of result ≡ new_exception ty }
{
    Exception {
        ty,
        bytes: [0; EXCEPTION_SIZE],
    }
}

/// An exception with the number of a kind that a word stands for.
pub fn with_number(exception: Exception, offset: u8, kind: IntKind, word: u64) -> Exception
    ensures { exception_of result ≡ with_number (exception_of exception) offset kind (value_of_word kind word) }
{
    let mut bytes = exception.bytes;
    put_bytes(
        &mut bytes,
        usize::from(offset),
        size(kind),
        bits(kind, word),
    );
    Exception {
        ty: exception.ty,
        bytes,
    }
}

/// The word of a number of a kind in an exception.
pub fn number_in(exception: Exception, offset: u8, kind: IntKind) -> u64
    ensures { result ≡ word_of (number_in (exception_of exception) offset kind) }
{
    let number = get_bytes(&exception.bytes, usize::from(offset), size(kind));
    word_of(value_of_word(kind, number))
}

/// The word of a thread's argument.
pub fn argument(arg: i64) -> u64
    ensures { result ≡ word_of arg }
{
    word_of(i128::from(arg))
}

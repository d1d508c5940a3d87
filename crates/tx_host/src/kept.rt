// What a host in memory keeps.

ghost use Rattle.std.specs.Prelude.{◌≡◌, ◌+◌, ◌≤◌, ◌++◌, ◌∷◌, [], map, length, take, position, string_bytes, IfOk, IfErr, OnOk, OnErr};
ghost use Rattle.std.specs.Str.{bytes_eq};
ghost use Rattle.std.specs.Option.{option_copied};
ghost use Rattle.tx_host.specs.Told.{Seen, with_read, set_file};
ghost use Rattle.tx_host.specs.Kept.{seen_of, files_of};

use crate::faults::WriteFault;
use std::alloc::{AllocError, Global};

/// A read that answered: the name, the limit and the bytes.
#[derive(Drop)]
pub struct Read {
    name: String,
    limit: u64,
    bytes: Vec<u8>,
}

impl Read {
    pub fn new(alloc: Global, name: &str, limit: u64, bytes: &[u8]) -> Result<Read, AllocError>
        ensures { IfOk result
            (λ read. seen_of read ≡ record { name = name.now; limit = limit; bytes = bytes.now }) }
    {
        Ok(Read {
            name: String::from_str(alloc, name)?,
            limit,
            bytes: bytes.to_vec(alloc)?,
        })
    }
}

/// Notes a read that answered.
pub fn keep_read(
    reads: &mut Vec<Read>,
    alloc: Global,
    name: &str,
    limit: u64,
    bytes: &[u8],
) -> Result<(), AllocError>
    ensures kept { OnOk result
        (map seen_of reads.new.items
        ≡ with_read (map seen_of reads.old.items) name.now limit bytes.now) }
    ensures memory { OnErr result (reads.new.items ≡ reads.old.items) }
{
    let read = Read::new(alloc, name, limit, bytes)?;
    reads.push(read)?;
    Ok(())
}

/// The bytes, or the first `limit + 1` of them where there are more.
pub fn front(bytes: &[u8], limit: u64) -> &[u8]
    ensures { result.now ≡ take (limit + 1) bytes.now }
{
    if limit >= bytes.len() as u64 {
        bytes
    } else {
        &bytes[..limit as usize + 1]
    }
}

/// The bytes of the file of that name.
pub fn file_at<'a>(files: &'a [(String, Vec<u8>)], name: &str) -> Option<&'a [u8]>
    ensures { option_copied result ≡ files_of files.now name.now }
{
    files
        .iter()
        .find(|file| file.0.as_str() == name)
        .map(|file| file.1.as_slice())
}

// The index of the first file of that name.
fn index_of(files: &[(String, Vec<u8>)], name: &str) -> Option<usize>
    ensures { result ≡ position (λ file. bytes_eq (string_bytes file.0) name.now) files.now }
{
    files.iter().position(|file| file.0.as_str() == name)
}

/// Gives the file of that name exactly these bytes.
pub fn write_at(
    files: &mut Vec<(String, Vec<u8>)>,
    alloc: Global,
    name: &str,
    bytes: &[u8],
) -> Result<(), AllocError>
    ensures written { OnOk result (files_of files.new.items ≡ set_file (files_of files.old.items) name.now bytes.now) }
    ensures memory { OnErr result (files.new.items ≡ files.old.items) }
{
    let bytes = bytes.to_vec(alloc)?;
    match index_of(files.as_slice(), name) {
        Some(at) => files[at].1 = bytes,
        None => files.push((String::from_str(alloc, name)?, bytes))?,
    }
    Ok(())
}

/// Puts these bytes at the end of an output.
pub fn append(output: &mut Vec<u8>, bytes: &[u8]) -> Result<(), WriteFault>
    ensures written { OnOk result (output.new.items ≡ output.old.items ++ bytes.now) }
    ensures memory { OnErr result (output.new.items ≡ output.old.items) }
    ensures only_memory { IfErr result (λ fault. fault ≡ WriteFault.Memory) }
{
    output
        .extend_from_slice(bytes)
        .map_err(|_| WriteFault::Memory)
}

// What a host is asked, step by step: `read a 10`, `write a bye`, `out x`, `err x`, `all out=x f=y`, and what command_io reads:
// `source a`, `sources a b`, `objects a b`, `given`.

use case_texts::{bytes_of, words_of};
use command_io::{FileKind, Unread, Write, read_each, read_file, read_given, write_all};
use std::alloc::{AllocError, Global};
use tx_host::{Host, ReadFault, WriteFault};

// The bytes that were read.
fn shown(alloc: Global, read: Result<Vec<u8>, ReadFault>) -> Result<String, AllocError> {
    match read {
        Ok(bytes) => format!(in alloc; "{}", bytes.escape_ascii()),
        Err(fault) => format!(in alloc; "{fault:?}"),
    }
}

// Whether a write was made.
fn made(alloc: Global, written: Result<(), WriteFault>) -> Result<String, AllocError> {
    match written {
        Ok(()) => format!(in alloc; "written"),
        Err(fault) => format!(in alloc; "{fault:?}"),
    }
}

// How many bytes a file has.
fn counted(alloc: Global, read: Result<Vec<u8>, Unread>) -> Result<String, AllocError> {
    match read {
        Ok(bytes) => format!(in alloc; "{} bytes", bytes.len()),
        Err(fault) => format!(in alloc; "{fault:?}"),
    }
}

// How many files were read.
fn each<H: Host>(
    alloc: Global,
    host: &mut H,
    names: &str,
    kind: FileKind,
) -> Result<String, AllocError> {
    let names = words_of(alloc, names)?;
    match read_each(alloc, host, &names, kind) {
        Ok(files) => format!(in alloc; "{} files", files.len()),
        Err(fault) => format!(in alloc; "{fault:?}"),
    }
}

// A write: `out=x` and `err=x` are those of the outputs, else it is of a file.
fn write_of(alloc: Global, word: &str) -> Result<Write, AllocError> {
    let (name, text) = word.split_once('=').unwrap_or((word, ""));
    let bytes = bytes_of(alloc, text)?;
    match name {
        "out" => Ok(Write::Out(bytes)),
        "err" => Ok(Write::Err(bytes)),
        _ => Ok(Write::File {
            name: String::from_str(alloc, name)?,
            bytes,
        }),
    }
}

// All of these writes.
fn writes(alloc: Global, words: &str) -> Result<Vec<Write>, AllocError> {
    let mut writes = Vec::new(alloc);
    for word in words.split(' ') {
        writes.push(write_of(alloc, word)?)?;
    }
    Ok(writes)
}

// The answer to a step.
fn answer<H: Host>(alloc: Global, host: &mut H, step: &str) -> Result<String, AllocError> {
    let (word, rest) = step.split_once(' ').unwrap_or((step, ""));
    let (name, text) = rest.split_once(' ').unwrap_or((rest, ""));
    match word {
        "read" => {
            let limit = text.parse::<u64>().unwrap_or(0);
            shown(alloc, host.read_file(alloc, name, limit))
        }
        "write" => made(alloc, host.write_file(name, &bytes_of(alloc, text)?)),
        "out" => made(alloc, host.write_out(&bytes_of(alloc, rest)?)),
        "err" => made(alloc, host.write_err(&bytes_of(alloc, rest)?)),
        "all" => made(alloc, write_all(host, &writes(alloc, rest)?)),
        "source" => counted(alloc, read_file(alloc, host, name, FileKind::Source)),
        "given" => counted(alloc, read_given(alloc, host, &None, FileKind::Input)),
        "sources" => each(alloc, host, rest, FileKind::Source),
        _ => each(alloc, host, rest, FileKind::Object),
    }
}

/// The answers to the steps, each behind a bar.
pub fn take<H: Host>(alloc: Global, host: &mut H, steps: &str) -> Result<String, AllocError> {
    let mut line = String::new(alloc);
    for step in steps.split(" | ") {
        let answer = answer(alloc, host, step)?;
        line.push_str(&format!(in alloc; "{answer} | ")?)?;
    }
    Ok(line)
}

// Hosts: `steady a=hello | read a 10` is a host whose calls do not fail, with a file `a`; `memory fails=1` one whose call
// number 1 fails; `counted` the real host over outputs that count, and `real` over the outputs of this program.

use crate::steps::take;
use case_texts::bytes_of;
use std::alloc::{AllocError, Global};
use std::cell::Cell;
use std::fmt::Display;
use std::io;
use std::rt::Files;
use tx_host::{MemHost, RealHost, SteadyHost};

// The files whose bytes are told in the end.
const NAMES: [&str; 4] = ["a", "b", "c", "f"];

// What a host begins with.
#[derive(Drop)]
struct Start {
    files: Vec<(String, Vec<u8>)>,
    fails: Vec<u64>,
}

// What the head of a case says that a host begins with.
fn start_of(alloc: Global, head: &str) -> Result<Start, AllocError> {
    let mut start = Start {
        files: Vec::new(alloc),
        fails: Vec::new(alloc),
    };
    for word in head.split(' ') {
        let (name, text) = word.split_once('=').unwrap_or(("", ""));
        if name == "fails" {
            start.fails.push(text.parse::<u64>().unwrap_or(0))?;
        } else if !name.is_empty() {
            let file = (String::from_str(alloc, name)?, bytes_of(alloc, text)?);
            start.files.push(file)?;
        }
    }
    Ok(start)
}

// Adds what was written.
fn add_outputs(alloc: Global, line: &mut String, out: &[u8], err: &[u8]) -> Result<(), AllocError> {
    line.push_str(&format!(in alloc; "out {} err {}", out.escape_ascii(), err.escape_ascii())?)
}

// Adds a file, or how many bytes it has where it has many.
fn add_file(
    alloc: Global,
    line: &mut String,
    name: &str,
    file: Option<&[u8]>,
) -> Result<(), AllocError> {
    match file {
        Some(bytes) if bytes.len() > 100 => {
            line.push_str(&format!(in alloc; " {name} {} bytes", bytes.len())?)
        }
        Some(bytes) => line.push_str(&format!(in alloc; " {name} {}", bytes.escape_ascii())?),
        None => Ok(()),
    }
}

/// What comes of a case over a host whose calls do not fail.
pub fn steady(alloc: Global, case: &str) -> Result<String, AllocError> {
    let (head, steps) = case.split_once(" | ").unwrap_or(("", case));
    let start = start_of(alloc, head)?;
    let mut host = SteadyHost::new(alloc, start.files)?;
    let mut line = take(alloc, &mut host, steps)?;
    add_outputs(alloc, &mut line, host.out(), host.err())?;
    for name in NAMES.iter() {
        add_file(alloc, &mut line, *name, host.file(*name))?;
    }
    Ok(line)
}

/// What comes of a case over a host some of whose calls fail.
pub fn memory(alloc: Global, case: &str) -> Result<String, AllocError> {
    let (head, steps) = case.split_once(" | ").unwrap_or(("", case));
    let start = start_of(alloc, head)?;
    let mut host = MemHost::new(alloc, start.files, start.fails)?;
    let mut line = take(alloc, &mut host, steps)?;
    line.push_str(&format!(in alloc; "faults {} ", host.faults())?)?;
    add_outputs(alloc, &mut line, host.out(), host.err())?;
    for name in NAMES.iter() {
        add_file(alloc, &mut line, *name, host.file(*name))?;
    }
    Ok(line)
}

// An output that counts the bytes that it takes, up to a limit.
#[derive(Drop)]
struct Counter {
    taken: Cell<usize>,
    limit: usize,
}

impl Print for Counter {
    fn print<D: Display + Drop>(&self, _value: D) -> io::Result<()> {
        self.write_all(b"")
    }

    fn println<D: Display + Drop>(&self, _value: D) -> io::Result<()> {
        self.write_all(b"")
    }

    fn write_all(&self, bytes: &[u8]) -> io::Result<()> {
        let taken = self.taken.get().saturating_add(bytes.len());
        if taken > self.limit {
            return Err(io::Error::from(io::ErrorKind::WriteZero));
        }
        self.taken.set(taken);
        Ok(())
    }
}

/// What comes of steps of the real host over these outputs.
pub fn real<F: Files, O: Print, E: Print>(
    files: &F,
    out: &O,
    err: &E,
    alloc: Global,
    steps: &str,
) -> Result<String, AllocError> {
    let mut host = RealHost::new(files, out, err, alloc);
    let mut line = take(alloc, &mut host, steps)?;
    line.push_str(&format!(in alloc; "faults {}", host.faults())?)?;
    Ok(line)
}

/// The same over an output that takes 20 bytes and one that takes 6, and how many they took.
pub fn counted<F: Files>(files: &F, alloc: Global, steps: &str) -> Result<String, AllocError> {
    let out = Counter {
        taken: Cell::new(0),
        limit: 20,
    };
    let err = Counter {
        taken: Cell::new(0),
        limit: 6,
    };
    let line = real(files, &out, &err, alloc, steps)?;
    format!(in alloc; "{line} out {} err {}", out.taken.get(), err.taken.get())
}

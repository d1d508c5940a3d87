// The host over the system's files and outputs, the trusted edge.

ghost use Rattle.std.specs.Prelude.{◌≡◌, ◌+◌, ◌≤◌, [], None, map, length, IfOk, IfErr, OnOk, OnErr, is_ok};
ghost use Rattle.tx_host.specs.Told.{one_more};
ghost use Rattle.tx_host.specs.Kept.{seen_of};

use crate::count::Count;
use crate::faults::{ReadFault, WriteFault};
use crate::host::Host;
use crate::kept::{Read, keep_read};
use std::alloc::Global;
use std::rt::Files;
use std::{fs, io};

/// The system's files, its standard output and its standard error.
///
/// It tells neither what files hold nor what was written, since nothing is known of either.
#[derive(Drop)]
pub struct RealHost<'a, F, O, E> {
    files: &'a F,
    out: &'a O,
    err: &'a E,
    alloc: Global,
    reads: Vec<Read>,
    faults: Count,
}

impl<'a, F: Files, O: Print, E: Print> RealHost<'a, F, O, E> {
    /// A host that has read nothing, over the runtime's files and its two outputs.
    pub fn new(files: &'a F, out: &'a O, err: &'a E, alloc: Global) -> RealHost<'a, F, O, E>
        ensures { ⟦<RealHost<'a, F, O, E> as Host>⟧.state result ≡ record { files = None; seen = []; out = None; err = None; faults = 0 } }
    {
        RealHost {
            files,
            out,
            err,
            alloc,
            reads: Vec::new(alloc),
            faults: Count::new(),
        }
    }

    /// How many calls failed.
    pub fn faults(&self) -> u64
        ensures { result ≡ (⟦<RealHost<'a, F, O, E> as Host>⟧.state self.now).faults }
    {
        self.faults.value()
    }
}

// How many bytes are read at once.
const PIECE: usize = 4096;

// The whole file, or its first `limit + 1` bytes where it has more. A read of no byte is its end.
fn read_up_to<F: Files>(
    files: &F,
    alloc: Global,
    name: &str,
    limit: u64,
) -> Result<Vec<u8>, ReadFault>
    ensures { IfOk result (λ bytes. length bytes.items ≤ limit + 1) }
{
    let mut file = fs::open(files, name).map_err(|_| ReadFault::Failed)?;
    let mut bytes = Vec::new(alloc);
    let mut piece = [0u8; PIECE];
    'pieces: for _ in 0..u64::MAX {
        let count = io::Read::read(&mut file, &mut piece).map_err(|_| ReadFault::Failed)?;
        if count == 0 {
            return Ok(bytes);
        }
        bytes
            .extend_from_slice(&piece[..count])
            .map_err(|_| ReadFault::Memory)?;
        if bytes.len() as u64 > limit {
            bytes.truncate(limit as usize + 1);
            return Ok(bytes);
        }
    }
    Err(ReadFault::Failed)
}

// The answer to a write, whose failure is counted.
fn written(faults: &mut Count, write: io::Result<()>) -> Result<(), WriteFault>
    ensures variant { is_ok result ≡ is_ok write }
    ensures well { OnOk result (faults.new.value ≡ faults.old.value) }
    ensures failed { OnErr result (faults.new.value ≡ one_more faults.old.value) }
    ensures only_failed { IfErr result (λ fault. fault ≡ WriteFault.Failed) }
{
    match write {
        Ok(()) => Ok(()),
        Err(_) => {
            faults.rise();
            Err(WriteFault::Failed)
        }
    }
}

impl<'a, F: Files, O: Print, E: Print> Host for RealHost<'a, F, O, E> {
    ghost state = { λ host. record {
      files = None;
      seen = map seen_of host.reads.items;
      out = None;
      err = None;
      faults = host.faults.value;
    } };

    ghost small = { λ host. host.faults.small };

    fn read_file(&mut self, alloc: Global, name: &str, limit: u64) -> Result<Vec<u8>, ReadFault> {
        let read = read_up_to(self.files, alloc, name, limit);
        if let Err(ReadFault::Failed) = read {
            self.faults.rise();
        }
        let bytes = read?;
        keep_read(&mut self.reads, self.alloc, name, limit, bytes.as_slice()).map_err(
            |_| ReadFault::Memory,
        )?;
        Ok(bytes)
    }

    fn write_file(&mut self, name: &str, bytes: &[u8]) -> Result<(), WriteFault> {
        written(&mut self.faults, fs::write(self.files, name, bytes))
    }

    fn write_out(&mut self, bytes: &[u8]) -> Result<(), WriteFault> {
        written(&mut self.faults, self.out.write_all(bytes))
    }

    fn write_err(&mut self, bytes: &[u8]) -> Result<(), WriteFault> {
        written(&mut self.faults, self.err.write_all(bytes))
    }
}

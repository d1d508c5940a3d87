// A host in memory that never fails.

ghost use Rattle.std.specs.Prelude.{◌≡◌, ◌+◌, [], Some, take, unwrap_or, IfOk, OnOk, OnErr, IsErrOf};
ghost use Rattle.std.specs.Option.{option_copied};
ghost use Rattle.std.proofs.Common.{rules};
ghost use Rattle.tx_host.specs.Kept.{files_of};
ghost use Rattle.tx_host.specs.Steady.{shown, with_seen, with_written, with_out, with_err};

use crate::faults::{ReadFault, WriteFault};
use crate::host::Host;
use crate::kept::{Read, append, file_at, front, keep_read, write_at};
use std::alloc::{AllocError, Global};

/// Files in memory, where a name that is not held is read as an empty file. No call fails.
#[derive(Drop)]
pub struct SteadyHost {
    alloc: Global,
    files: Vec<(String, Vec<u8>)>,
    reads: Vec<Read>,
    out: Vec<u8>,
    err: Vec<u8>,
}

impl SteadyHost {
    /// A host of these files. Where a name stands twice, the first counts.
    pub fn new(alloc: Global, files: Vec<(String, Vec<u8>)>) -> Result<SteadyHost, AllocError>
        ensures { IfOk result
            (λ host. shown host ≡ record {
              files = files_of files.items;
              seen = [];
              out = [];
              err = [];
            }) }
    {
        Ok(SteadyHost {
            alloc,
            files,
            reads: Vec::new(alloc),
            out: Vec::new(alloc),
            err: Vec::new(alloc),
        })
    }

    /// The bytes of the file of that name.
    pub fn file(&self, name: &str) -> Option<&[u8]>
        ensures { option_copied result ≡ (shown self.now).files name.now }
    {
        file_at(self.files.as_slice(), name)
    }

    /// The bytes written to the output.
    pub fn out(&self) -> &[u8]
        ensures { result.now ≡ (shown self.now).out }
    {
        self.out.as_slice()
    }

    /// The bytes written to the error output.
    pub fn err(&self) -> &[u8]
        ensures { result.now ≡ (shown self.now).err }
    {
        self.err.as_slice()
    }
}

impl Host for SteadyHost {
    ghost state = { λ host. record {
      files = Some (shown host).files;
      seen = (shown host).seen;
      out = Some (shown host).out;
      err = Some (shown host).err;
      faults = 0;
    } };

    ghost small = { λ _. Prim.search rules };

    fn read_file(&mut self, alloc: Global, name: &str, limit: u64) -> Result<Vec<u8>, ReadFault>
        ensures front { IfOk result
            (λ bytes. bytes.items
            ≡ take (limit + 1) (unwrap_or ((shown self.old).files name.now) [])) }
        ensures read { IfOk result
            (λ bytes. shown self.new ≡ with_seen (shown self.old) name.now limit bytes.items) }
        ensures memory { OnErr result (shown self.new ≡ shown self.old) }
        ensures steady { ¬ (IsErrOf result ReadFault.Failed) }
    {
        let kept = front(file_at(self.files.as_slice(), name).unwrap_or(&[]), limit);
        let bytes = kept.to_vec(alloc).map_err(|_| ReadFault::Memory)?;
        keep_read(&mut self.reads, self.alloc, name, limit, kept).map_err(|_| ReadFault::Memory)?;
        Ok(bytes)
    }

    fn write_file(&mut self, name: &str, bytes: &[u8]) -> Result<(), WriteFault>
        ensures written { OnOk result (shown self.new ≡ with_written (shown self.old) name.now bytes.now) }
        ensures memory { OnErr result (shown self.new ≡ shown self.old) }
        ensures steady { ¬ (IsErrOf result WriteFault.Failed) }
    {
        write_at(&mut self.files, self.alloc, name, bytes).map_err(|_| WriteFault::Memory)
    }

    fn write_out(&mut self, bytes: &[u8]) -> Result<(), WriteFault>
        ensures written { OnOk result (shown self.new ≡ with_out (shown self.old) bytes.now) }
        ensures memory { OnErr result (shown self.new ≡ shown self.old) }
        ensures steady { ¬ (IsErrOf result WriteFault.Failed) }
    {
        append(&mut self.out, bytes)
    }

    fn write_err(&mut self, bytes: &[u8]) -> Result<(), WriteFault>
        ensures written { OnOk result (shown self.new ≡ with_err (shown self.old) bytes.now) }
        ensures memory { OnErr result (shown self.new ≡ shown self.old) }
        ensures steady { ¬ (IsErrOf result WriteFault.Failed) }
    {
        append(&mut self.err, bytes)
    }
}

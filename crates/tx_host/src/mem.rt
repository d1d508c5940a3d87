// A host in memory whose calls fail where a test wants it.

ghost use Rattle.std.specs.Prelude.{◌≡◌, ◌⊎◌, ◌↔◌, [], Some, None, IfOk, OnOk, IsErrOf, IsTrue};
ghost use Rattle.std.specs.Option.{option_copied};
ghost use Rattle.tx_host.specs.Kept.{files_of};
ghost use Rattle.tx_host.specs.Mem.{shown, told, IsToFail, IsHeldFront, counted, faulted, with_seen, with_written, with_out, with_err, half};

use crate::count::Count;
use crate::faults::{ReadFault, WriteFault};
use crate::host::Host;
use crate::kept::{Read, append, file_at, front, keep_read, write_at};
use std::alloc::{AllocError, Global};

/// Files in memory. The calls whose numbers stand in a list, counted from 0 over all four calls,
/// answer `Failed`, and so does a read of a file that is not there. A write that fails writes the
/// first half of its bytes, rounded down. A call that finds no memory isn't counted.
#[derive(Drop)]
pub struct MemHost {
    alloc: Global,
    files: Vec<(String, Vec<u8>)>,
    reads: Vec<Read>,
    out: Vec<u8>,
    err: Vec<u8>,
    faults: Count,
    calls: Count,
    fails: Vec<u64>,
}

impl MemHost {
    /// A host of these files, whose calls with the numbers `fails` fail. Where a name stands twice,
    /// the first counts.
    pub fn new(
        alloc: Global,
        files: Vec<(String, Vec<u8>)>,
        fails: Vec<u64>,
    ) -> Result<MemHost, AllocError>
        ensures { IfOk result
            (λ host. shown host ≡ record {
              files = files_of files.items;
              seen = [];
              out = [];
              err = [];
              faults = 0;
              calls = 0;
              fails = fails.items;
            }) }
    {
        Ok(MemHost {
            alloc,
            files,
            reads: Vec::new(alloc),
            out: Vec::new(alloc),
            err: Vec::new(alloc),
            faults: Count::new(),
            calls: Count::new(),
            fails,
        })
    }

    /// The bytes of the file of that name.
    pub fn file(&self, name: &str) -> Option<&[u8]>
        ensures { option_copied result ≡ (shown self.now).files name.now }
    {
        file_at(self.files.as_slice(), name)
    }

    /// The bytes written to the output.
    pub fn out(&self) -> &[u8]
        ensures { result.now ≡ (shown self.now).out }
    {
        self.out.as_slice()
    }

    /// The bytes written to the error output.
    pub fn err(&self) -> &[u8]
        ensures { result.now ≡ (shown self.now).err }
    {
        self.err.as_slice()
    }

    /// How many calls failed.
    pub fn faults(&self) -> u64
        ensures { result ≡ (shown self.now).faults }
    {
        self.faults.value()
    }

    // Whether the next call is to fail.
    fn is_to_fail(&self) -> bool
        ensures { IsTrue result ↔ IsToFail (shown self.now) }
    {
        self.fails.contains(&self.calls.value())
    }

    // Counts a call.
    fn count_call(&mut self)
        ensures { shown self.new ≡ counted (shown self.old) }
    {
        self.calls.rise();
    }

    // Counts a call that failed.
    fn count_fault(&mut self)
        ensures { shown self.new ≡ counted (faulted (shown self.old)) }
    {
        self.calls.rise();
        self.faults.rise();
    }
}

// The first half of the bytes, rounded down.
fn first_half(bytes: &[u8]) -> &[u8]
    ensures { result.now ≡ half bytes.now }
{
    &bytes[..bytes.len() / 2]
}

impl Host for MemHost {
    ghost state = { λ host. told (shown host) };

    ghost small = { λ host. host.faults.small };

    fn read_file(&mut self, alloc: Global, name: &str, limit: u64) -> Result<Vec<u8>, ReadFault>
        ensures front { IfOk result (λ bytes. IsHeldFront ((shown self.old).files name.now) limit bytes.items) }
        ensures read { IfOk result
            (λ bytes. shown self.new
            ≡ counted (with_seen (shown self.old) name.now limit bytes.items)) }
        ensures memory { IsErrOf result ReadFault.Memory → shown self.new ≡ shown self.old }

        // A call fails where its number says so, and where the file is missing.
        ensures fails { IsErrOf result ReadFault.Failed
            ↔ (IsToFail (shown self.old) ⊎ ((shown self.old).files name.now ≡ None)) }
        ensures failed { IsErrOf result ReadFault.Failed → shown self.new ≡ counted (faulted (shown self.old)) }
    {
        if self.is_to_fail() {
            self.count_fault();
            return Err(ReadFault::Failed);
        }
        let Some(whole) = file_at(self.files.as_slice(), name) else {
            self.count_fault();
            return Err(ReadFault::Failed);
        };
        let kept = front(whole, limit);
        let bytes = kept.to_vec(alloc).map_err(|_| ReadFault::Memory)?;
        keep_read(&mut self.reads, self.alloc, name, limit, kept).map_err(|_| ReadFault::Memory)?;
        self.count_call();
        Ok(bytes)
    }

    fn write_file(&mut self, name: &str, bytes: &[u8]) -> Result<(), WriteFault>
        ensures goes_on { OnOk result (¬ (IsToFail (shown self.old))) }
        ensures written { OnOk result (shown self.new ≡ counted (with_written (shown self.old) name.now bytes.now)) }
        ensures memory { IsErrOf result WriteFault.Memory → shown self.new ≡ shown self.old }
        ensures fails { IsErrOf result WriteFault.Failed → IsToFail (shown self.old) }
        ensures failed { IsErrOf result WriteFault.Failed →
            shown self.new
            ≡ counted (faulted (with_written (shown self.old) name.now (half bytes.now))) }
    {
        if self.is_to_fail() {
            let part = first_half(bytes);
            write_at(&mut self.files, self.alloc, name, part).map_err(|_| WriteFault::Memory)?;
            self.count_fault();
            return Err(WriteFault::Failed);
        }
        write_at(&mut self.files, self.alloc, name, bytes).map_err(|_| WriteFault::Memory)?;
        self.count_call();
        Ok(())
    }

    fn write_out(&mut self, bytes: &[u8]) -> Result<(), WriteFault>
        ensures goes_on { OnOk result (¬ (IsToFail (shown self.old))) }
        ensures written { OnOk result (shown self.new ≡ counted (with_out (shown self.old) bytes.now)) }
        ensures memory { IsErrOf result WriteFault.Memory → shown self.new ≡ shown self.old }
        ensures fails { IsErrOf result WriteFault.Failed → IsToFail (shown self.old) }
        ensures failed { IsErrOf result WriteFault.Failed →
            shown self.new ≡ counted (faulted (with_out (shown self.old) (half bytes.now))) }
    {
        if self.is_to_fail() {
            append(&mut self.out, first_half(bytes))?;
            self.count_fault();
            return Err(WriteFault::Failed);
        }
        append(&mut self.out, bytes)?;
        self.count_call();
        Ok(())
    }

    fn write_err(&mut self, bytes: &[u8]) -> Result<(), WriteFault>
        ensures goes_on { OnOk result (¬ (IsToFail (shown self.old))) }
        ensures written { OnOk result (shown self.new ≡ counted (with_err (shown self.old) bytes.now)) }
        ensures memory { IsErrOf result WriteFault.Memory → shown self.new ≡ shown self.old }
        ensures fails { IsErrOf result WriteFault.Failed → IsToFail (shown self.old) }
        ensures failed { IsErrOf result WriteFault.Failed →
            shown self.new ≡ counted (faulted (with_err (shown self.old) (half bytes.now))) }
    {
        if self.is_to_fail() {
            append(&mut self.err, first_half(bytes))?;
            self.count_fault();
            return Err(WriteFault::Failed);
        }
        append(&mut self.err, bytes)?;
        self.count_call();
        Ok(())
    }
}

// What a host promises.

ghost use Rattle.std.specs.Prelude.{◌≡◌, ℕ, ◌+◌, ◌≤◌, ◌<◌, ◌^◌, length, IfOk, OnOk, IsErrOf};
ghost use Rattle.tx_host.specs.Told.{HostState, IsFront, after_read, after_out, after_err, after_file, FailsRead, FailsOut, FailsErr, FailsFile};

use crate::faults::{ReadFault, WriteFault};
use std::alloc::Global;

/// The outside of the program: files that are read and written, the output and the error output.
///
/// Each call says all that it changes: `state` is the whole of what a host tells.
pub trait Host {
    // What the host tells.
    ghost state: { Self → HostState };

    /// Reads the whole file, or its first `limit + 1` bytes where it has more.
    fn read_file(&mut self, alloc: Global, name: &str, limit: u64) -> Result<Vec<u8>, ReadFault>
        ensures read { IfOk result (λ bytes. state self.new ≡ after_read (state self.old) name.now limit bytes.items) }
        ensures front { IfOk result (λ bytes. IsFront (state self.old).files name.now limit bytes.items) }
        ensures within { IfOk result (λ bytes. length bytes.items ≤ limit + 1) }
        ensures memory { IsErrOf result ReadFault.Memory → state self.new ≡ state self.old }
        ensures failed { IsErrOf result ReadFault.Failed → FailsRead (state self.old) (state self.new) };

    /// Gives the file of that name exactly these bytes.
    fn write_file(&mut self, name: &str, bytes: &[u8]) -> Result<(), WriteFault>
        ensures written { OnOk result (state self.new ≡ after_file (state self.old) name.now bytes.now) }
        ensures memory { IsErrOf result WriteFault.Memory → state self.new ≡ state self.old }
        ensures failed { IsErrOf result WriteFault.Failed →
            FailsFile (state self.old) (state self.new) name.now bytes.now };

    /// Writes exactly these bytes at the end of the output.
    fn write_out(&mut self, bytes: &[u8]) -> Result<(), WriteFault>
        ensures written { OnOk result (state self.new ≡ after_out (state self.old) bytes.now) }
        ensures memory { IsErrOf result WriteFault.Memory → state self.new ≡ state self.old }
        ensures failed { IsErrOf result WriteFault.Failed → FailsOut (state self.old) (state self.new) bytes.now };

    /// Writes exactly these bytes at the end of the error output.
    fn write_err(&mut self, bytes: &[u8]) -> Result<(), WriteFault>
        ensures written { OnOk result (state self.new ≡ after_err (state self.old) bytes.now) }
        ensures memory { IsErrOf result WriteFault.Memory → state self.new ≡ state self.old }
        ensures failed { IsErrOf result WriteFault.Failed → FailsErr (state self.old) (state self.new) bytes.now };

    // The count stays below 2^64.
    ghost small: { (host : Self) → (state host).faults < 2 ^ 64 };
}

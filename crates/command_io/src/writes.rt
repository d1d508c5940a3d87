//! What is written, in order.

ghost use Rattle.std.specs.Prelude.{◌≡◌, map, OnOk, IfErr};
ghost use Rattle.command_io.specs.Writes.{written_of, after_write, after_writes, FailsWrite, StopsWriting};

use tx_host::{Host, WriteFault};

/// Bytes for one call of the host.
#[derive(Debug, Drop)]
pub enum Write {
    /// At the end of the output.
    Out(Vec<u8>),
    /// At the end of the error output.
    Err(Vec<u8>),
    /// The whole of a file.
    File { name: String, bytes: Vec<u8> },
}

// Makes one write.
fn write_one<H: Host>(host: &mut H, write: &Write) -> Result<(), WriteFault>
    ensures written { OnOk result (H.state host.new ≡ after_write (H.state host.old) (written_of write.now)) }
    ensures unwritten { IfErr result (FailsWrite (H.state host.old) (H.state host.new) (written_of write.now)) }
{
    match write {
        Write::Out(bytes) => host.write_out(bytes.as_slice()),
        Write::Err(bytes) => host.write_err(bytes.as_slice()),
        Write::File { name, bytes } => host.write_file(name.as_str(), bytes.as_slice()),
    }
}

/// Makes these writes in order, up to the first that is not made.
pub fn write_all<H: Host>(host: &mut H, writes: &[Write]) -> Result<(), WriteFault>
    ensures written { OnOk result (H.state host.new ≡ after_writes (H.state host.old) (map written_of writes.now)) }
    ensures unwritten { IfErr result (StopsWriting (H.state host.old) (map written_of writes.now) (H.state host.new)) }
{
    'writes: for write in writes.iter() {
        if let Err(fault) = write_one(host, write) {
            return Err(fault);
        }
    }
    Ok(())
}

//! How many sources a call takes.

ghost use Rattle.std.specs.Prelude.{◌≡◌, map, codes, IfOk};
ghost use Rattle.command_io.specs.Writes.{written_of};
ghost use Rattle.tx_answers.specs.Ends.{Refuses};
ghost use Rattle.tx_answers.specs.declared.answer.Status.TheVariants as status;

use std::alloc::{AllocError, Global};
use tx_answers::{Decision, Status, refusal};

/// The most sources that a call takes.
pub const MOST_SOURCES: usize = 16;

/// The number of the refusal of a limit.
const LIMIT: u8 = 7;

// The bytes of a line.
fn bytes_of(alloc: Global, line: &str) -> Result<Vec<u8>, AllocError>
    ensures { IfOk result (λ bytes. bytes.items ≡ line.now) }
{
    line.as_bytes().to_vec(alloc)
}

/// The refusal of more sources.
pub fn too_many_sources(alloc: Global) -> Result<Decision, AllocError>
    ensures { IfOk result (λ d. Refuses 7 (codes "Limit Sources") status.Limit d.answer (map written_of d.writes.items)) }
{
    let line = bytes_of(alloc, "Limit Sources")?;
    refusal(alloc, LIMIT, line, Status::Limit)
}

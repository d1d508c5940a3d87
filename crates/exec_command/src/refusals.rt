//! The refusals of the steps of `exec`.

ghost use Rattle.std.specs.Prelude.{◌≡◌, ◌++◌, map, codes, IfOk, string_bytes, ℕ, List};
ghost use Rattle.command_io.specs.Writes.{written_of};
ghost use Rattle.tx_answers.specs.declared.answer.Status.TheVariants as status;
ghost use Rattle.tx_answers.specs.Ends.{Refuses};
ghost use Rattle.exec_command.specs.Exec.{bad_schedule_line, bad_code_line, RefusesLink};

use link_faults::LinkFault;
use std::alloc::{AllocError, Global};
use tx_answers::{Decision, Status, refusal};

/// The number of the refusal of a limit.
const LIMIT: u8 = 7;

/// The number of the refusal of objects that can't be linked.
const LINK: u8 = 8;

/// The number of the refusal of code that is not sound.
const BAD_CODE: u8 = 9;

/// The number of the refusal of a schedule.
const BAD_SCHEDULE: u8 = 10;

// The bytes of a line.
fn bytes_of(alloc: Global, line: &str) -> Result<Vec<u8>, AllocError>
    ensures { IfOk result (λ bytes. bytes.items ≡ line.now) }
{
    line.as_bytes().to_vec(alloc)
}

// A limit that is not one of a file, by its line.
fn limit(alloc: Global, line: &str) -> Result<Decision, AllocError>
    ensures { IfOk result (λ d. Refuses 7 line.now status.Limit d.answer (map written_of d.writes.items)) }
{
    let bytes = bytes_of(alloc, line)?;
    refusal(alloc, LIMIT, bytes, Status::Limit)
}

/// More objects than a call takes.
pub fn too_many(alloc: Global) -> Result<Decision, AllocError>
    ensures { IfOk result (λ d. Refuses 7 (codes "Limit Sources") status.Limit d.answer (map written_of d.writes.items)) }
{
    limit(alloc, "Limit Sources")
}

// The line of a schedule that is not in its grammar.
fn bad_schedule_text(alloc: Global, file: &str, line: usize) -> Result<String, AllocError>
    ensures { IfOk result (λ text. string_bytes text ≡ bad_schedule_line file.now line) }
{
    format!(in alloc; "{file}:{line}: BadSchedule")
}

/// A schedule with this first line outside its grammar.
pub fn bad_schedule(alloc: Global, file: &str, line: usize) -> Result<Decision, AllocError>
    ensures { IfOk result (λ d. Refuses 10 (bad_schedule_line file.now line) status.BadSchedule d.answer (map written_of d.writes.items)) }
{
    let text = bad_schedule_text(alloc, file, line)?;
    refusal(alloc, BAD_SCHEDULE, text.into_bytes(), Status::BadSchedule)
}

// The line of code that is not sound.
fn bad_code_text(alloc: Global, func: u32, index: u64, rule: u32) -> Result<String, AllocError>
    ensures { IfOk result (λ text. string_bytes text ≡ bad_code_line func index rule) }
{
    format!(in alloc; "BadCode {func} {index} {rule}")
}

/// Code of which this clause is broken first.
pub fn bad_code(alloc: Global, func: u32, index: u64, rule: u32) -> Result<Decision, AllocError>
    ensures { IfOk result (λ d. Refuses 9 (bad_code_line func index rule) status.Refused d.answer (map written_of d.writes.items)) }
{
    let text = bad_code_text(alloc, func, index, rule)?;
    refusal(alloc, BAD_CODE, text.into_bytes(), Status::Refused)
}

// The line of a fault of linking: its kind and its symbol.
fn link_line(alloc: Global, kind: &str, symbol: &[u8]) -> Result<Vec<u8>, AllocError>
    ensures { IfOk result (λ line. line.items ≡ kind.now ++ symbol.now) }
{
    let mut line = kind.as_bytes().to_vec(alloc)?;
    line.extend_from_slice(symbol)?;
    Ok(line)
}

// Objects that can't be linked, by the kind of their fault and its symbol.
fn bad_symbol(alloc: Global, kind: &str, symbol: &[u8]) -> Result<Decision, AllocError>
    ensures { IfOk result (λ d. Refuses 8 (kind.now ++ symbol.now) status.Refused d.answer (map written_of d.writes.items)) }
{
    let line = link_line(alloc, kind, symbol)?;
    refusal(alloc, LINK, line, Status::Refused)
}

// Objects of which none has a `main`.
fn no_main(alloc: Global) -> Result<Decision, AllocError>
    ensures { IfOk result (λ d. Refuses 8 (codes "Link NoMain main()") status.Refused d.answer (map written_of d.writes.items)) }
{
    let line = b"Link NoMain main()".to_vec(alloc)?;
    refusal(alloc, LINK, line, Status::Refused)
}

/// Objects with this fault.
pub fn bad_link(alloc: Global, fault: &LinkFault) -> Result<Decision, AllocError>
    ensures { IfOk result (λ d. RefusesLink fault.now d.answer (map written_of d.writes.items)) }
{
    match fault {
        LinkFault::Twice { symbol } => bad_symbol(alloc, "Link Twice ", symbol.as_slice()),
        LinkFault::OdrDiffers { symbol } => {
            bad_symbol(alloc, "Link OdrDiffers ", symbol.as_slice())
        }
        LinkFault::Undefined { symbol } => bad_symbol(alloc, "Link Undefined ", symbol.as_slice()),
        LinkFault::UnsafeSymbol { symbol } => {
            bad_symbol(alloc, "Link UnsafeSymbol ", symbol.as_slice())
        }
        LinkFault::NoMain => no_main(alloc),
        LinkFault::Globals { .. } => limit(alloc, "Limit Globals"),
        LinkFault::Memory => Err(AllocError),
    }
}

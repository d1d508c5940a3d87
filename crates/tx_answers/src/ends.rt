//! How a command ends: what it decided is written, and answered.

ghost use Rattle.std.specs.Prelude.{◌≡◌, ◌++◌, [], ◌∷◌, map, Err, IfOk, Ok, None, codes, string_bytes};
ghost use Rattle.std.specs.Option.{option_map};
ghost use Rattle.command_io.specs.Reads.{wanted, wanted_each, wanted_given};
ghost use Rattle.command_io.specs.Writes.{written_of};
ghost use Rattle.tx_host.specs.Told.{HostState};
ghost use Rattle.tx_answers.specs.declared.answer.Status.TheVariants as status;
ghost use Rattle.tx_answers.specs.Ends.{bare, Refuses, bad_object_line, limit_line, IsLimited, Finishes, Settles, Halts, HaltsAmong};

use crate::answer::{Answer, Refusal, Status};
use command_io::{FileKind, Unread, Write, write_all};
use std::alloc::{AllocError, Global};
use tx_host::{Host, WriteFault};

/// The number of the refusal of a file that passes its limit.
const LIMIT: u8 = 7;

/// The number of the refusal of a file that spells no object.
const BAD_OBJECT: u8 = 11;

/// What a command decided: its answer, and what is written for it.
#[derive(Drop)]
pub struct Decision {
    pub answer: Answer,
    pub writes: Vec<Write>,
}

/// An answer with a status alone.
pub fn bare(status: Status) -> Answer
    ensures { result ≡ bare status }
{
    Answer {
        status,
        ran: None,
        refusal: None,
    }
}

/// Writes what was decided, and answers it.
pub fn finish<H: Host>(host: &mut H, decision: Decision) -> Answer
    ensures { Finishes (H.state host.old) (H.state host.new) decision.answer (map written_of decision.writes.items) result }
{
    match write_all(host, decision.writes.as_slice()) {
        Ok(()) => decision.answer,
        Err(WriteFault::Failed) => bare(Status::HostFault),
        Err(WriteFault::Memory) => bare(Status::Memory),
    }
}

// The bytes with a byte 10 at their end.
fn ended(alloc: Global, line: &[u8]) -> Result<Vec<u8>, AllocError>
    ensures { IfOk result (λ bytes. bytes.items ≡ line.now ++ codes "\n") }
{
    let mut bytes = line.to_vec(alloc)?;
    bytes.push(b'\n')?;
    Ok(bytes)
}

/// A refusal with this number and this line.
pub fn refusal(
    alloc: Global,
    number: u8,
    line: Vec<u8>,
    status: Status,
) -> Result<Decision, AllocError>
    ensures { IfOk result (λ d. Refuses number line.items status d.answer (map written_of d.writes.items)) }
{
    let text = ended(alloc, line.as_slice())?;
    let writes = vec![in alloc; Write::Err(text)]?;
    Ok(Decision {
        answer: Answer {
            status,
            ran: None,
            refusal: Some(Refusal { number, line }),
        },
        writes,
    })
}

// The line of a file that spells no object.
fn bad_object_text(alloc: Global, file: &str, at: u64) -> Result<String, AllocError>
    ensures { IfOk result (λ line. string_bytes line ≡ bad_object_line file.now at) }
{
    format!(in alloc; "{file}: BadObject {at}")
}

/// The refusal of a file that spells no object; its first wrong field begins at this byte.
pub fn bad_object(alloc: Global, file: &str, at: u64) -> Result<Decision, AllocError>
    ensures { IfOk result (λ d. Refuses 11 (bad_object_line file.now at) status.Refused d.answer (map written_of d.writes.items)) }
{
    let line = bad_object_text(alloc, file, at)?;
    refusal(alloc, BAD_OBJECT, line.into_bytes(), Status::Refused)
}

// The line of a file that passes its limit.
fn limit_text(alloc: Global, name: &str, kind: FileKind) -> Result<String, AllocError>
    ensures { IfOk result (λ line. string_bytes line ≡ limit_line (wanted kind name.now)) }
{
    let which = kind.name();
    format!(in alloc; "{name}: Limit {which}")
}

/// The refusal of a file that passes its limit.
pub fn over_limit(alloc: Global, name: &str, kind: FileKind) -> Result<Decision, AllocError>
    ensures { IfOk result (λ d. IsLimited (wanted kind name.now) d.answer (map written_of d.writes.items)) }
{
    let line = limit_text(alloc, name, kind)?;
    refusal(alloc, LIMIT, line.into_bytes(), Status::Limit)
}

/// Writes what was decided, and answers it; where memory ran out before anything was decided, answers that.
pub fn settle<H: Host>(host: &mut H, decision: Result<Decision, AllocError>) -> Answer
    ensures { Settles (H.state host.old) (H.state host.new) decision result }
{
    match decision {
        Ok(decision) => finish(host, decision),
        Err(_) => bare(Status::Memory),
    }
}

/// Answers where the files of a command were not read to the last. A file that passed its limit is this one.
pub fn halt<H: Host>(
    alloc: Global,
    host: &mut H,
    name: &str,
    kind: FileKind,
    unread: Unread,
) -> Answer
    ensures { Halts (wanted kind name.now) unread (H.state host.old) (H.state host.new) result }
{
    match unread {
        Unread::TooLong { .. } => settle(host, over_limit(alloc, name, kind)),
        Unread::Failed => bare(Status::HostFault),
        Unread::Memory => bare(Status::Memory),
    }
}

/// Answers where these files were not read to the last.
pub fn halt_among<H: Host>(
    alloc: Global,
    host: &mut H,
    names: &[String],
    kind: FileKind,
    unread: Unread,
) -> Answer
    ensures { HaltsAmong (wanted_each kind (map string_bytes names.now)) unread (H.state host.old) (H.state host.new) result }
{
    match unread {
        Unread::TooLong { index } => match names.get(index) {
            Some(name) => settle(host, over_limit(alloc, name.as_str(), kind)),
            // No other file was read.
            None => bare(Status::Memory),
        },
        Unread::Failed => bare(Status::HostFault),
        Unread::Memory => bare(Status::Memory),
    }
}

/// Answers where a file that may be named was not read.
pub fn halt_given<H: Host>(
    alloc: Global,
    host: &mut H,
    name: &Option<String>,
    kind: FileKind,
    unread: Unread,
) -> Answer
    ensures { HaltsAmong (wanted_given kind (option_map string_bytes name.now)) unread (H.state host.old) (H.state host.new) result }
{
    match name {
        Some(name) => halt_named(alloc, host, name.as_str(), kind, unread),
        None => halt_none(unread),
    }
}

/// Answers where no file was to be read, which never comes.
pub fn halt_none(unread: Unread) -> Answer
    ensures { (s : HostState) → HaltsAmong [] unread s s result }
{
    match unread {
        Unread::TooLong { .. } => bare(Status::Memory),
        Unread::Failed => bare(Status::HostFault),
        Unread::Memory => bare(Status::Memory),
    }
}

/// Answers where the only file of a list was not read.
pub fn halt_named<H: Host>(
    alloc: Global,
    host: &mut H,
    name: &str,
    kind: FileKind,
    unread: Unread,
) -> Answer
    ensures { HaltsAmong (wanted kind name.now ∷ []) unread (H.state host.old) (H.state host.new) result }
{
    halt(alloc, host, name, kind, unread)
}

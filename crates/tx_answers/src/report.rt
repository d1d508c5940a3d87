//! The lines that an end writes.

ghost use Rattle.std.specs.Prelude.{◌≡◌, IfOk, string_bytes};
ghost use Rattle.tx_answers.specs.Report.{trap_name, end_line, turn_line, end_lines, status_of};

use crate::answer::Status;
use std::alloc::{AllocError, Global};
use tx_events::{End, Trap};
use tx_machine::Ran;
use vm_thread::Here;

/// The name of a trap.
pub fn trap_name(trap: Trap) -> &'static str
    ensures { result.now ≡ trap_name trap }
{
    match trap {
        Trap::Overflow => "Overflow",
        Trap::DivideByZero => "DivideByZero",
        Trap::ShiftRange => "ShiftRange",
        Trap::BadAddress => "BadAddress",
        Trap::StackOverflow => "StackOverflow",
        Trap::UnsafeCall => "UnsafeCall",
        Trap::BadCall => "BadCall",
        Trap::BadVirtual => "BadVirtual",
        Trap::TooManyThreads => "TooManyThreads",
        Trap::BadJoin => "BadJoin",
    }
}

/// The line of an end; of a trap without its place.
pub fn end_line(alloc: Global, end: End) -> Result<String, AllocError>
    ensures { IfOk result (λ text. string_bytes text ≡ end_line end) }
{
    match end {
        End::Exit(n) => format!(in alloc; "exit {n}\n"),
        End::Abort => String::from_str(alloc, "abort\n"),
        End::Terminate => String::from_str(alloc, "terminate\n"),
        End::Trapped(trap) => {
            let name = trap_name(trap);
            format!(in alloc; "trap {name}\n")
        }
        End::StepsOut => String::from_str(alloc, "steps out\n"),
    }
}

/// The line of the turns: how many ran, waited, gave up a block, and had nothing to do.
pub fn turn_line(
    alloc: Global,
    ran: u64,
    waited: u64,
    rolled: u64,
    idle: u64,
) -> Result<String, AllocError>
    ensures { IfOk result (λ text. string_bytes text ≡ turn_line ran waited rolled idle) }
{
    format!(in alloc; "turns ran {ran} waited {waited} rolled {rolled} idle {idle}\n")
}

/// The end line and the turn line.
pub fn end_lines(alloc: Global, ran: &Ran<Here>) -> Result<String, AllocError>
    ensures { IfOk result (λ text. string_bytes text ≡ end_lines ran.now) }
{
    let mut lines = end_line(alloc, ran.end)?;
    let turns = turn_line(alloc, ran.ran, ran.waited, ran.rolled, ran.idle)?;
    lines.push_str(turns.as_str())?;
    Ok(lines)
}

/// The status of an end.
pub fn status_of(end: End) -> Status
    ensures { result ≡ status_of end }
{
    match end {
        End::Exit(_) => Status::Done,
        End::Abort => Status::Abort,
        End::Terminate => Status::Terminate,
        End::Trapped(_) => Status::Trapped,
        End::StepsOut => Status::StepsOut,
    }
}

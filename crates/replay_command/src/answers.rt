//! What a replay answers and writes, and the refusals that it alone has.

ghost use Rattle.std.specs.Prelude.{◌≡◌, ◌++◌, map, codes, IfOk, string_bytes};
ghost use Rattle.command_io.specs.Writes.{written_of};
ghost use Rattle.tx_answers.specs.declared.answer.Status.TheVariants as status;
ghost use Rattle.tx_answers.specs.Ends.{Refuses};
ghost use Rattle.replay_command.specs.Replays.{end_line, status_of, limit_line, not_a_run_line, spent_line, Answers};

use command_io::Write;
use cpp_tree::below::End;
use src_replay::Replayed;
use std::alloc::{AllocError, Global};
use tx_answers::{Decision, Status, bare, refusal};

/// The number of the refusal of a limit.
const LIMIT: u8 = 7;

/// The number of the refusal of an order with an entry that is not enabled.
const NOT_A_RUN: u8 = 13;

/// The number of the refusal of an order that costs too much.
const SPENT: u8 = 15;

// The line of an end, and of none.
fn end_text(alloc: Global, end: Option<End>) -> Result<String, AllocError>
    ensures { IfOk result (λ text. string_bytes text ≡ end_line end) }
{
    match end {
        Some(end) => tx_answers::end_line(alloc, end),
        None => String::from_str(alloc, "open\n"),
    }
}

// The status of an end, and of none.
fn end_status(end: Option<End>) -> Status
    ensures { result ≡ status_of end }
{
    match end {
        Some(end) => tx_answers::status_of(end),
        None => Status::StepsOut,
    }
}

/// The output of what was replayed, and the line of its end.
pub fn ended(alloc: Global, replayed: Replayed) -> Result<Decision, AllocError>
    ensures { IfOk result (λ d. Answers replayed d.answer (map written_of d.writes.items)) }
{
    let Replayed { out, end, .. } = replayed;
    let line = end_text(alloc, end)?;
    let writes = vec![in alloc; Write::Out(out), Write::Err(line.into_bytes())]?;
    Ok(Decision {
        answer: bare(end_status(end)),
        writes,
    })
}

// The line of an order that is too long.
fn too_long_text(alloc: Global, name: &str) -> Result<String, AllocError>
    ensures { IfOk result (λ text. string_bytes text ≡ limit_line name.now) }
{
    format!(in alloc; "{name}: Limit Order")
}

/// An order that has too many entries.
pub fn too_long(alloc: Global, name: &str) -> Result<Decision, AllocError>
    ensures { IfOk result (λ d. Refuses 7 (limit_line name.now) status.Limit d.answer (map written_of d.writes.items)) }
{
    let text = too_long_text(alloc, name)?;
    refusal(alloc, LIMIT, text.into_bytes(), Status::Limit)
}

// The line of an order with an entry that is not enabled.
fn not_a_run_text(alloc: Global, name: &str, index: u32) -> Result<String, AllocError>
    ensures { IfOk result (λ text. string_bytes text ≡ not_a_run_line name.now index) }
{
    format!(in alloc; "{name}: NotARun {index}")
}

/// An order with an entry that is not enabled.
pub fn not_a_run(alloc: Global, name: &str, index: u32) -> Result<Decision, AllocError>
    ensures { IfOk result (λ d. Refuses 13 (not_a_run_line name.now index) status.Refused d.answer (map written_of d.writes.items)) }
{
    let text = not_a_run_text(alloc, name, index)?;
    refusal(alloc, NOT_A_RUN, text.into_bytes(), Status::Refused)
}

// The line of an order that costs too much.
fn spent_text(alloc: Global, index: u32) -> Result<String, AllocError>
    ensures { IfOk result (λ text. string_bytes text ≡ spent_line index) }
{
    format!(in alloc; "cost out {index}")
}

/// An order whose entries up to this one cost too much.
pub fn spent(alloc: Global, index: u32) -> Result<Decision, AllocError>
    ensures { IfOk result (λ d. Refuses 15 (spent_line index) status.CostOut d.answer (map written_of d.writes.items)) }
{
    let text = spent_text(alloc, index)?;
    refusal(alloc, SPENT, text.into_bytes(), Status::CostOut)
}

//! The steps of `replay` behind the reads: each one decides, or hands on to the next.

ghost use Rattle.std.specs.Prelude.{◌≡◌, map, IfOk, string_bytes};
ghost use Rattle.std.specs.List.{All};
ghost use Rattle.command_io.specs.Writes.{written_of};
ghost use Rattle.cpp_tree.specs.Units.{program_of};
ghost use Rattle.src_bind.specs.Bounds.{given};
ghost use Rattle.src_bind.specs.Tables.{CanBind, typed};
ghost use Rattle.tx_code.specs.Objects.{object_view};
ghost use Rattle.tx_code.specs.WellFormed.{IsObject};
ghost use Rattle.replay_command.specs.Replays.{Decides, OnKept, DecidesTexts, DecidesUnits, DecidesObjects, DecidesBound, DecidesOrder};
ghost use Rattle.tx_safety.specs.Answers.{checked_in};

use crate::answers::{ended, not_a_run, spent, too_long};
use exec_command::refusals::{bad_link, bad_schedule};
use schedules::{Schedule, ScheduleFault, read};
use source_verdict::{Verdict, verdict_of};
use src_bind::{Bound, bind};
use src_link::{can_bind, choices};
use src_replay::{ReplayFault, replay};
use std::alloc::{AllocError, Global};
use tx_answers::Decision;
use tx_code::Object;
use tx_linker::link;
use tx_safety::SafeProgram;
use tx_words::Replay;
use unit_objects::unit_objects;

// What is decided on the order of a bound program.
fn with_bound<'a>(
    alloc: Global,
    words: &Replay,
    bound: &'a Bound<'a>,
    input: &'a [u8],
    order: &[u8],
) -> Result<Decision, AllocError>
    requires { CanBind (typed (given bound.now)) }
    ensures { IfOk result (λ d. DecidesOrder words.now (given bound.now) input.now order.now d.answer (map written_of d.writes.items)) }
{
    match replay(alloc, bound, input, order, words.cost) {
        Ok(replayed) => ended(alloc, replayed),
        Err(ReplayFault::NotARun { index }) => not_a_run(alloc, words.order_file.as_str(), index),
        Err(ReplayFault::Spent { index }) => spent(alloc, index),
        Err(ReplayFault::Memory) => Err(AllocError),
    }
}

// The symbols of a program are bound. That a program that is accepted can be bound is tested.
fn with_program(
    alloc: Global,
    words: &Replay,
    safe: &SafeProgram,
    input: &[u8],
    order: &[u8],
) -> Result<Decision, AllocError>
    ensures { IfOk result (λ d. DecidesBound words.now (checked_in safe.now) input.now order.now d.answer (map written_of d.writes.items)) }
{
    let program = safe.program();
    if !can_bind(alloc, program)? {
        return Err(AllocError);
    }
    let choices = choices(alloc, safe)?;
    let bound = bind(alloc, program, &choices)?;
    with_bound(alloc, words, &bound, input, order)
}

// The objects are linked, so that what does not link is refused.
fn with_objects(
    alloc: Global,
    words: &Replay,
    safe: &SafeProgram,
    objects: &[Object],
    input: &[u8],
    order: &[u8],
) -> Result<Decision, AllocError>
    requires { All (λ o. IsObject (object_view o)) objects.now }
    ensures { IfOk result (λ d. DecidesObjects words.now (checked_in safe.now) (map object_view objects.now) input.now order.now d.answer (map written_of d.writes.items)) }
{
    match link(alloc, objects) {
        Ok(_image) => with_program(alloc, words, safe, input, order),
        Err(fault) => bad_link(alloc, &fault),
    }
}

// A program that is accepted is compiled.
fn compiled(
    alloc: Global,
    words: &Replay,
    safe: &SafeProgram,
    texts: &[Vec<u8>],
    input: &[u8],
    order: &[u8],
) -> Result<Decision, AllocError>
    ensures { IfOk result (λ d. DecidesUnits words.now (checked_in safe.now) input.now order.now d.answer (map written_of d.writes.items)) }
{
    let objects = unit_objects(alloc, safe, words.sources.as_slice(), texts)?;
    with_objects(alloc, words, safe, objects.as_slice(), input, order)
}

// What is decided on the texts of the sources.
fn with_texts(
    alloc: Global,
    words: &Replay,
    texts: &[Vec<u8>],
    input: &[u8],
    order: &[u8],
) -> Result<Decision, AllocError>
    ensures { IfOk result (λ d. DecidesTexts words.now (map (λ text. text.items) texts.now) input.now order.now d.answer (map written_of d.writes.items)) }
{
    match verdict_of(alloc, words.sources.as_slice(), texts)? {
        Verdict::Accepted(safe) => compiled(alloc, words, &safe, texts, input, order),
        Verdict::Refused(decision) => Ok(decision),
    }
}

// What is decided on an order that was read.
fn with_order(
    alloc: Global,
    words: &Replay,
    texts: &[Vec<u8>],
    input: &[u8],
    order: &Schedule,
) -> Result<Decision, AllocError>
    ensures { IfOk result (λ d. OnKept words.now (map (λ text. text.items) texts.now) input.now order.now d.answer (map written_of d.writes.items)) }
{
    if order.has_more {
        return too_long(alloc, words.order_file.as_str());
    }
    with_texts(alloc, words, texts, input, order.entries.as_slice())
}

/// What the command decides on the texts of its files.
pub fn decided(
    alloc: Global,
    words: &Replay,
    texts: &[Vec<u8>],
    input: &[u8],
    order: &[u8],
) -> Result<Decision, AllocError>
    ensures { IfOk result (λ d. Decides words.now (map (λ text. text.items) texts.now) input.now order.now d.answer (map written_of d.writes.items)) }
{
    match read(alloc, order) {
        Ok(schedule) => with_order(alloc, words, texts, input, &schedule),
        Err(ScheduleFault::BadSchedule { line }) => {
            bad_schedule(alloc, words.order_file.as_str(), line)
        }
        Err(ScheduleFault::Memory) => Err(AllocError),
    }
}

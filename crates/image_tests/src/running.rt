// Objects that are linked, verified and run: `run FIRST | SECOND`, and `trace` for a run with its trace.

ghost use Rattle.std.specs.Prelude.{◌<◌};
ghost use Rattle.tx_events.specs.declared.TheConstants.{THREAD_LIMIT};

use crate::texts::objects_of;
use choosers::named::{older, round};
use choosers::picker::Picker;
use choosers::policy::{OlderRule, Policy};
use choosers::{Clash, Seen};
use code_verify::{GoodImage, verify};
use std::alloc::{AllocError, Global};
use traced_runs::run_traced;
use tx_events::THREAD_LIMIT;
use tx_linker::link;
use tx_machine::Ran;
use tx_machine::image::run;
use vm_thread::Here;

// The picker `round:1`, of as many threads as there may be.
fn each_in_turn(seen: &Seen) -> u8
    ensures { result < THREAD_LIMIT }
{
    if seen.started == 0 {
        return 0;
    }
    if seen.started > THREAD_LIMIT {
        return 0;
    }
    round(1, seen)
}

// The image of two objects, if they are linked to one that is sound.
fn image_of(alloc: Global, case: &str) -> Option<GoodImage> {
    let Ok(objects) = objects_of(alloc, case) else {
        return None;
    };
    let Ok(image) = link(alloc, &objects) else {
        return None;
    };
    verify(alloc, image).ok()
}

// The record of a run.
fn record(alloc: Global, ran: &Ran<Here>) -> Result<String, AllocError> {
    format!(in alloc;
        "{} {:?} {:?} {} turns {} {} {} {} trapped {}",
        ran.out.escape_ascii(),
        ran.end,
        ran.order.as_slice(),
        ran.picked.len(),
        ran.ran,
        ran.waited,
        ran.rolled,
        ran.idle,
        ran.place.is_some()
    )
}

// A run of an image.
fn run_of(alloc: Global, good: &GoodImage) -> Result<String, AllocError> {
    let policy: Policy<OlderRule, _> = Policy::new(|c: &Clash| older(c));
    let mut picker = Picker::new(|s: &Seen| each_in_turn(s), THREAD_LIMIT);
    let input = Vec::new(alloc);
    let ran = run(alloc, good.image(), input, &mut picker, &policy, 1000)?;
    record(alloc, &ran)
}

// A run with its trace.
fn trace_of(alloc: Global, good: &GoodImage) -> Result<String, AllocError> {
    let policy: Policy<OlderRule, _> = Policy::new(|c: &Clash| older(c));
    let mut picker = Picker::new(|s: &Seen| each_in_turn(s), THREAD_LIMIT);
    let input = Vec::new(alloc);
    let (ran, trace) = run_traced(alloc, good.image(), input, &mut picker, &policy, 1000)?;
    let record = record(alloc, &ran)?;
    format!(in alloc; "{record} {:?}", trace.items.as_slice())
}

/// The run of two objects.
pub fn answer(alloc: Global, case: &str, is_traced: bool) -> Result<String, AllocError> {
    match image_of(alloc, case) {
        Some(good) if is_traced => trace_of(alloc, &good),
        Some(good) => run_of(alloc, &good),
        None => format!(in alloc; "no image"),
    }
}

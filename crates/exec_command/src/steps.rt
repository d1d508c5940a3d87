//! The steps of `exec` behind the reads: each one decides, or hands on to the next.

ghost use Rattle.std.specs.Prelude.{◌≡◌, ◌≤◌, map, IfOk, true, nat_lt};
ghost use Rattle.std.specs.List.{All, list_all};
ghost use Rattle.command_io.specs.Writes.{written_of};
ghost use Rattle.named_runs.specs.NamedRuns.{CanPick};
ghost use Rattle.tx_code.specs.Objects.{object_view};
ghost use Rattle.tx_code.specs.Sound.{Sound};
ghost use Rattle.tx_code.specs.Views.{image_view};
ghost use Rattle.tx_code.specs.WellFormed.{IsObject};
ghost use Rattle.exec_command.specs.Exec.{CanRun, Decides, DecidesTexts, DecidesObjects, DecidesImage, RunsImage};
ghost use Rattle.tx_events.specs.declared.TheConstants.{THREAD_LIMIT};

use crate::files::{NoObjects, read_objects, schedule_name};
use crate::refusals::{bad_code, bad_link, bad_schedule};
use code_verify::{BadCode, verify};
use link_faults::LinkFault;
use named_runs::run_named;
use run_report::run_writes;
use schedules::{ScheduleFault, read};
use std::alloc::{AllocError, Global};
use tx_answers::{Answer, Decision, bad_object, status_of};
use tx_code::{Image, Object};
use tx_linker::link;
use tx_words::{Exec, RunOptions};

// The run of a sound image, and what is written of it.
fn run(
    alloc: Global,
    options: &RunOptions,
    image: &Image,
    input: Vec<u8>,
    entries: &[u8],
) -> Result<Decision, AllocError>
    requires sound { Sound (image_view image.now) }
    requires options { CanRun options.now }
    requires threads { list_all (λ t. nat_lt t THREAD_LIMIT) entries.now ≡ true }
    ensures { IfOk result (λ d. RunsImage options.now (image_view image.now) input.items entries.now d.answer (map written_of d.writes.items)) }
{
    let ran = run_named(
        alloc,
        image,
        input,
        &options.picker,
        entries,
        options.policy,
        options.steps,
    )?;
    let writes = run_writes(
        alloc,
        image,
        &ran,
        &options.order_file,
        &options.record_file,
    )?;
    Ok(Decision {
        answer: Answer {
            status: status_of(ran.end),
            ran: Some(ran),
            refusal: None,
        },
        writes,
    })
}

// The image is verified, and run.
fn with_image(
    alloc: Global,
    options: &RunOptions,
    image: Image,
    input: Vec<u8>,
    entries: &[u8],
) -> Result<Decision, AllocError>
    requires options { CanRun options.now }
    requires threads { list_all (λ t. nat_lt t THREAD_LIMIT) entries.now ≡ true }
    ensures { IfOk result (λ d. DecidesImage options.now (image_view image) input.items entries.now d.answer (map written_of d.writes.items)) }
{
    match verify(alloc, image) {
        Ok(good) => run(alloc, options, good.image(), input, entries),
        Err(BadCode::Rule { func, index, rule }) => bad_code(alloc, func, index, rule),
        Err(BadCode::Memory) => Err(AllocError),
    }
}

/// What is decided on objects: they are linked, the image is verified, and it is run.
pub fn with_objects(
    alloc: Global,
    options: &RunOptions,
    objects: &[Object],
    input: Vec<u8>,
    entries: &[u8],
) -> Result<Decision, AllocError>
    requires objects { All (λ o. IsObject (object_view o)) objects.now }
    requires options { CanRun options.now }
    requires threads { list_all (λ t. nat_lt t THREAD_LIMIT) entries.now ≡ true }
    ensures { IfOk result (λ d. DecidesObjects options.now (map object_view objects.now) input.items entries.now d.answer (map written_of d.writes.items)) }
{
    match link(alloc, objects) {
        Ok(image) => with_image(alloc, options, image, input, entries),
        Err(fault) => bad_link(alloc, &fault),
    }
}

/// The image of compiled sources is verified, and run. Code that is not sound would be a fault of the compiler, none of the sources: it counts as want of memory.
pub fn with_compiled_image(
    alloc: Global,
    options: &RunOptions,
    image: Image,
    input: Vec<u8>,
    entries: &[u8],
) -> Result<Decision, AllocError>
    requires options { CanRun options.now }
    requires threads { list_all (λ t. nat_lt t THREAD_LIMIT) entries.now ≡ true }
    ensures { IfOk result (λ d. RunsImage options.now (image_view image) input.items entries.now d.answer (map written_of d.writes.items)) }
{
    match verify(alloc, image) {
        Ok(good) => run(alloc, options, good.image(), input, entries),
        Err(_) => Err(AllocError),
    }
}

// The objects are read.
fn with_entries(
    alloc: Global,
    exec: &Exec,
    texts: &[Vec<u8>],
    input: Vec<u8>,
    entries: &[u8],
) -> Result<Decision, AllocError>
    requires options { CanRun exec.now.options }
    requires threads { list_all (λ t. nat_lt t THREAD_LIMIT) entries.now ≡ true }
    ensures { IfOk result (λ d. DecidesTexts exec.now (map (λ text. text.items) texts.now) input.items entries.now d.answer (map written_of d.writes.items)) }
{
    match read_objects(alloc, texts) {
        Ok(objects) => with_objects(alloc, &exec.options, objects.as_slice(), input, entries),
        Err(NoObjects::Wrong { index, at }) => {
            // Each text has its name.
            let Some(name) = exec.objects.get(index) else {
                return Err(AllocError);
            };
            bad_object(alloc, name.as_str(), at)
        }
        Err(NoObjects::Memory) => Err(AllocError),
    }
}

/// What the command decides on the texts of its files.
pub fn decided(
    alloc: Global,
    exec: &Exec,
    texts: &[Vec<u8>],
    input: Vec<u8>,
    schedule: &[u8],
) -> Result<Decision, AllocError>
    requires options { CanRun exec.now.options }
    ensures { IfOk result (λ d. Decides exec.now (map (λ text. text.items) texts.now) input.items schedule.now d.answer (map written_of d.writes.items)) }
{
    match read(alloc, schedule) {
        Ok(schedule) => with_entries(alloc, exec, texts, input, schedule.entries.as_slice()),
        Err(ScheduleFault::BadSchedule { line }) => {
            bad_schedule(alloc, schedule_name(&exec.options.picker), line)
        }
        Err(ScheduleFault::Memory) => Err(AllocError),
    }
}

//! The run of a sound image, with its races, and what is written of it.

ghost use Rattle.std.specs.Prelude.{◌≡◌, ◌++◌, [], ◌∷◌, map, IfOk, OnOk, true, nat_lt, string_bytes};
ghost use Rattle.std.specs.List.{list_all};
ghost use Rattle.std.specs.Option.{option_map};
ghost use Rattle.command_io.specs.Writes.{written_of, to_file};
ghost use Rattle.exec_command.specs.Exec.{CanRun};
ghost use Rattle.named_runs.specs.NamedRuns.{IsNamedRun, picker_of, policy_of};
ghost use Rattle.race_report.specs.Report.{report_text};
ghost use Rattle.run_report.specs.RunWrites.{run_writes};
ghost use Rattle.tx_code.specs.Sound.{Sound};
ghost use Rattle.tx_code.specs.Views.{image_view};
ghost use Rattle.tx_events.specs.declared.TheConstants.{THREAD_LIMIT};
ghost use Rattle.object_races.specs.ObjectRaces.{AreRaces, RunsWithRaces};

use crate::regular::a_trace_of_an_image_is_regular;
use command_io::Write;
use named_traces::trace_named;
use race_check::races;
use race_report::report_text;
use run_report::run_writes;
use std::alloc::{AllocError, Global};
use tx_answers::{Answer, Decision, status_of};
use tx_code::Image;
use tx_events::Trace;
use tx_machine::Ran;
use tx_words::RunOptions;
use vm_thread::Here;

/// A run, and the words of its races.
#[derive(Drop)]
pub struct RacedRun {
    pub ran: Ran<Here>,
    pub words: Vec<u64>,
}

// Runs the image, and finds the races of the trace of its order.
fn run_with_races(
    alloc: Global,
    options: &RunOptions,
    image: &Image,
    input: Vec<u8>,
    entries: &[u8],
) -> Result<RacedRun, AllocError>
    requires sound { Sound (image_view image.now) }
    requires options { CanRun options.now }
    requires threads { list_all (λ t. nat_lt t THREAD_LIMIT) entries.now ≡ true }
    ensures run { IfOk result (λ raced. IsNamedRun (image_view image.now) (picker_of options.now.picker entries.now) (policy_of options.now.policy) options.now.steps input.items raced.ran) }
    ensures races { IfOk result (λ raced. AreRaces (image_view image.now) input.items raced.ran.order.items raced.words.items) }
{
    let (ran, trace) = trace_named(
        alloc,
        image,
        input,
        &options.picker,
        entries,
        options.policy,
        options.steps,
    )?;
    a_trace_of_an_image_is_regular(image);
    let words = races(alloc, trace.items.as_slice())?;
    Ok(RacedRun { ran, words })
}

// One write more: the report of these words.
fn push_report(
    alloc: Global,
    writes: &mut Vec<Write>,
    file: &str,
    words: &[u64],
) -> Result<(), AllocError>
    ensures { OnOk result (map written_of writes.new.items ≡ map written_of writes.old.items ++ to_file file.now (report_text words.now) ∷ []) }
{
    let name = file.to_string(alloc)?;
    let bytes = report_text(alloc, words)?;
    writes.push(Write::File { name, bytes })?;
    Ok(())
}

// What is written of a run, and then the report of its races.
fn race_writes(
    alloc: Global,
    options: &RunOptions,
    file: &str,
    image: &Image,
    raced: &RacedRun,
) -> Result<Vec<Write>, AllocError>
    ensures { IfOk result (λ writes. map written_of writes.items ≡
        run_writes (image_view image.now) raced.now.ran (option_map string_bytes options.now.order_file) (option_map string_bytes options.now.record_file)
        ++ to_file file.now (report_text raced.now.words.items) ∷ []) }
{
    let mut writes = run_writes(
        alloc,
        image,
        &raced.ran,
        &options.order_file,
        &options.record_file,
    )?;
    push_report(alloc, &mut writes, file, raced.words.as_slice())?;
    Ok(writes)
}

/// Runs a sound image, and decides what is written: all that is written of the run, and then the report of its races to
/// this file.
pub(crate) fn run(
    alloc: Global,
    options: &RunOptions,
    file: &str,
    image: &Image,
    input: Vec<u8>,
    entries: &[u8],
) -> Result<Decision, AllocError>
    requires sound { Sound (image_view image.now) }
    requires options { CanRun options.now }
    requires threads { list_all (λ t. nat_lt t THREAD_LIMIT) entries.now ≡ true }
    ensures { IfOk result (λ d. RunsWithRaces options.now file.now (image_view image.now) input.items entries.now d.answer (map written_of d.writes.items)) }
{
    let raced = run_with_races(alloc, options, image, input, entries)?;
    let writes = race_writes(alloc, options, file, image, &raced)?;
    Ok(Decision {
        answer: Answer {
            status: status_of(raced.ran.end),
            ran: Some(raced.ran),
            refusal: None,
        },
        writes,
    })
}

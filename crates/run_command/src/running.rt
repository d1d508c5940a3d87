//! The command `run`.

ghost use Rattle.std.specs.Prelude.{◌≡◌, ◌≤◌, map, length, IfOk, true, nat_lt, string_bytes};
ghost use Rattle.command_io.specs.Writes.{written_of};
ghost use Rattle.exec_command.specs.Exec.{CanRun};
ghost use Rattle.run_command.specs.Commands.{Runs, Decides, DecidesOn, wants_of};
ghost use Rattle.tx_answers.specs.Ends.{Ends};

use crate::steps::with_texts;
use command_io::{FileKind, read_each, read_given};
use exec_command::files::{read_schedule, schedule_name};
use exec_command::halt_schedule;
use exec_command::refusals::bad_schedule;
use schedules::{ScheduleFault, read};
use source_verdict::limits::{MOST_SOURCES, too_many_sources};
use std::alloc::{AllocError, Global};
use tx_answers::{Answer, Decision, halt_among, halt_given, settle};
use tx_host::Host;
use tx_words::Run;

// What the command decides on the texts of its files.
fn decided(
    alloc: Global,
    run: &Run,
    texts: &[Vec<u8>],
    input: Vec<u8>,
    schedule: &[u8],
) -> Result<Decision, AllocError>
    requires options { CanRun run.now.options }
    ensures { IfOk result (λ d. Decides run.now (map (λ text. text.items) texts.now) input.items schedule.now d.answer (map written_of d.writes.items)) }
{
    match read(alloc, schedule) {
        Ok(schedule) => with_texts(
            alloc,
            &run.options,
            run.fold,
            run.sources.as_slice(),
            texts,
            input,
            schedule.entries.as_slice(),
        ),
        Err(ScheduleFault::BadSchedule { line }) => {
            bad_schedule(alloc, schedule_name(&run.options.picker), line)
        }
        Err(ScheduleFault::Memory) => Err(AllocError),
    }
}

// Reads the files, decides on their texts, and writes.
fn on_files<H: Host>(alloc: Global, run: &Run, host: &mut H) -> Answer
    requires options { CanRun run.now.options }
    ensures { Ends (wants_of run.now) (DecidesOn run.now) (H.state host.old) (H.state host.new) result }
{
    let names = run.sources.as_slice();
    let texts = match read_each(alloc, host, names, FileKind::Source) {
        Ok(texts) => texts,
        Err(unread) => return halt_among(alloc, host, names, FileKind::Source, unread),
    };
    let input_file = &run.options.input_file;
    let input = match read_given(alloc, host, input_file, FileKind::Input) {
        Ok(input) => input,
        Err(unread) => return halt_given(alloc, host, input_file, FileKind::Input, unread),
    };
    let picker = &run.options.picker;
    let schedule = match read_schedule(alloc, host, picker) {
        Ok(schedule) => schedule,
        Err(unread) => return halt_schedule(alloc, host, picker, unread),
    };
    settle(
        host,
        decided(alloc, run, texts.as_slice(), input, schedule.as_slice()),
    )
}

/// Reads the sources of the command, at most 16, and its input and schedule; the sources are checked, compiled, linked, verified and run. The first refusal on this way is written.
pub fn run<H: Host>(alloc: Global, run: &Run, host: &mut H) -> Answer
    requires options { CanRun run.now.options }
    ensures { Runs run.now (H.state host.old) (H.state host.new) result }
{
    if run.sources.len() > MOST_SOURCES {
        return settle(host, too_many_sources(alloc));
    }
    on_files(alloc, run, host)
}

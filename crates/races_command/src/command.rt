//! The command `races`.

ghost use Rattle.std.specs.Prelude.{map, IfOk};
ghost use Rattle.run_command.specs.command_io.Writes.{written_of};
ghost use Rattle.run_command.specs.exec_command.Exec.{CanRun};
ghost use Rattle.races_command.specs.Commands.{Reports, Decides, DecidesOn};
ghost use Rattle.run_command.specs.Commands.{wants_of};
ghost use Rattle.run_command.specs.tx_answers.Ends.{Ends};

use crate::steps::with_texts;
use run_command::below::{
    Answer, Decision, FileKind, Host, MOST_SOURCES, Races, ScheduleFault, bad_schedule, halt_among,
    halt_given, halt_schedule, read, read_each, read_given, read_schedule, schedule_name, settle,
    too_many_sources,
};
use std::alloc::{AllocError, Global};

// What the command decides on the texts of its files.
fn decided(
    alloc: Global,
    races: &Races,
    texts: &[Vec<u8>],
    input: Vec<u8>,
    schedule: &[u8],
) -> Result<Decision, AllocError>
    requires options { CanRun races.now.run.options }
    ensures { IfOk result (λ d. Decides races.now (map (λ text. text.items) texts.now) input.items schedule.now d.answer (map written_of d.writes.items)) }
{
    match read(alloc, schedule) {
        Ok(schedule) => with_texts(
            alloc,
            &races.run.options,
            races.run.fold,
            races.report_file.as_str(),
            races.run.sources.as_slice(),
            texts,
            input,
            schedule.entries.as_slice(),
        ),
        Err(ScheduleFault::BadSchedule { line }) => {
            bad_schedule(alloc, schedule_name(&races.run.options.picker), line)
        }
        Err(ScheduleFault::Memory) => Err(AllocError),
    }
}

// Reads the files, decides on their texts, and writes.
fn on_files<H: Host>(alloc: Global, races: &Races, host: &mut H) -> Answer
    requires options { CanRun races.now.run.options }
    ensures { Ends (wants_of races.now.run) (DecidesOn races.now) (H.state host.old) (H.state host.new) result }
{
    let names = races.run.sources.as_slice();
    let texts = match read_each(alloc, host, names, FileKind::Source) {
        Ok(texts) => texts,
        Err(unread) => return halt_among(alloc, host, names, FileKind::Source, unread),
    };
    let input_file = &races.run.options.input_file;
    let input = match read_given(alloc, host, input_file, FileKind::Input) {
        Ok(input) => input,
        Err(unread) => return halt_given(alloc, host, input_file, FileKind::Input, unread),
    };
    let picker = &races.run.options.picker;
    let schedule = match read_schedule(alloc, host, picker) {
        Ok(schedule) => schedule,
        Err(unread) => return halt_schedule(alloc, host, picker, unread),
    };
    settle(
        host,
        decided(alloc, races, texts.as_slice(), input, schedule.as_slice()),
    )
}

/// Reads the sources of the command, at most 16, and its input and schedule; the sources are checked, compiled, linked, verified and run, and the races of the run are reported.
/// The first refusal on this way is written.
pub fn races<H: Host>(alloc: Global, races: &Races, host: &mut H) -> Answer
    requires options { CanRun races.now.run.options }
    ensures { Reports races.now (H.state host.old) (H.state host.new) result }
{
    if races.run.sources.len() > MOST_SOURCES {
        return settle(host, too_many_sources(alloc));
    }
    on_files(alloc, races, host)
}

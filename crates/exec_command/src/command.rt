//! The command.

ghost use Rattle.std.specs.Prelude.{◌≡◌, ◌≤◌, map, length, IfOk, string_bytes};
ghost use Rattle.exec_command.specs.Exec.{CanRun, Executes, DecidesOn};
ghost use Rattle.exec_command.specs.Files.{wants_of, schedule_file};
ghost use Rattle.command_io.specs.Reads.{wanted_given};
ghost use Rattle.command_io.specs.declared.files.FileKind.TheVariants as kind;
ghost use Rattle.tx_answers.specs.Ends.{Ends, HaltsAmong};

use crate::files::read_schedule;
use crate::refusals::too_many;
use crate::steps::decided;
use command_io::{FileKind, Unread, read_each, read_given};
use std::alloc::Global;
use tx_answers::{Answer, halt_among, halt_given, halt_named, halt_none, settle};
use tx_host::Host;
use tx_words::{Exec, PickerName};

/// The most objects that a call takes.
const MOST_OBJECTS: usize = 16;

/// Answers where the schedule was not read.
pub fn halt_schedule<H: Host>(
    alloc: Global,
    host: &mut H,
    picker: &PickerName,
    unread: Unread,
) -> Answer
    ensures { HaltsAmong (wanted_given kind.Schedule (schedule_file picker.now)) unread (H.state host.old) (H.state host.new) result }
{
    match picker {
        PickerName::File(name) => halt_named(
            alloc,
            host,
            name.as_str(),
            FileKind::Schedule,
            unread,
        ),
        PickerName::Round(_) => halt_none(unread),
        PickerName::Clash => halt_none(unread),
    }
}

// Reads the files, decides on their texts, and writes.
fn on_files<H: Host>(alloc: Global, exec: &Exec, host: &mut H) -> Answer
    requires options { CanRun exec.now.options }
    ensures { Ends (wants_of exec.now) (DecidesOn exec.now) (H.state host.old) (H.state host.new) result }
{
    let names = exec.objects.as_slice();
    let objects = match read_each(alloc, host, names, FileKind::Object) {
        Ok(objects) => objects,
        Err(unread) => return halt_among(alloc, host, names, FileKind::Object, unread),
    };
    let input_file = &exec.options.input_file;
    let input = match read_given(alloc, host, input_file, FileKind::Input) {
        Ok(input) => input,
        Err(unread) => return halt_given(alloc, host, input_file, FileKind::Input, unread),
    };
    let picker = &exec.options.picker;
    let schedule = match read_schedule(alloc, host, picker) {
        Ok(schedule) => schedule,
        Err(unread) => return halt_schedule(alloc, host, picker, unread),
    };
    settle(
        host,
        decided(alloc, exec, objects.as_slice(), input, schedule.as_slice()),
    )
}

/// Reads the objects of the command, at most 16, and its input and schedule, links and verifies them, and runs the image.
pub fn exec<H: Host>(alloc: Global, exec: &Exec, host: &mut H) -> Answer
    requires options { CanRun exec.now.options }
    ensures { Executes exec.now (H.state host.old) (H.state host.new) result }
{
    if exec.objects.len() > MOST_OBJECTS {
        return settle(host, too_many(alloc));
    }
    on_files(alloc, exec, host)
}

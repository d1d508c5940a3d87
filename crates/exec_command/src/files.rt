//! The texts of the files.

ghost use Rattle.std.specs.Prelude.{◌≡◌, ◌≤◌, [], map, IfOk, IfErr, None};
ghost use Rattle.std.specs.List.{All};
ghost use Rattle.command_io.specs.Reads.{wanted_given, bytes_of, ReadsWithin, StopsReading};
ghost use Rattle.command_io.specs.declared.files.FileKind.TheVariants as kind;
ghost use Rattle.tx_code.specs.Objects.{object_view};
ghost use Rattle.tx_code.specs.WellFormed.{IsObject};
ghost use Rattle.exec_command.specs.Files.{schedule_file};
ghost use Rattle.exec_command.specs.Objects.{SpellAll, IsWrong};
ghost use Rattle.exec_command.specs.Exec.{schedule_name};

use command_io::{FileKind, Unread, read_file};
use object_file::{ObjectFault, read};
use std::alloc::Global;
use tx_code::Object;
use tx_host::Host;
use tx_words::PickerName;

/// The name of the schedule's file, where the picker has one.
pub fn schedule_name(picker: &PickerName) -> &str
    ensures { result.now ≡ schedule_name picker.now }
{
    match picker {
        PickerName::File(name) => name.as_str(),
        PickerName::Round(_) | PickerName::Clash => "",
    }
}

/// Reads the schedule, where the picker has one; else the text is empty.
pub fn read_schedule<H: Host>(
    alloc: Global,
    host: &mut H,
    picker: &PickerName,
) -> Result<Vec<u8>, Unread>
    ensures read { IfOk result (λ bytes. ReadsWithin (H.state host.old) (wanted_given kind.Schedule (schedule_file picker.now)) (bytes_of (schedule_file picker.now) bytes.items) (H.state host.new)) }
    ensures unread { IfErr result (StopsReading (H.state host.old) (wanted_given kind.Schedule (schedule_file picker.now)) (H.state host.new)) }
    ensures empty { IfOk result (λ bytes. schedule_file picker.now ≡ None → bytes.items ≡ []) }
{
    match picker {
        PickerName::File(name) => read_file(alloc, host, name.as_str(), FileKind::Schedule),
        PickerName::Round(_) => Ok(Vec::new(alloc)),
        PickerName::Clash => Ok(Vec::new(alloc)),
    }
}

/// Why texts are no objects.
#[derive(Clone, Copy)]
pub enum NoObjects {
    /// The text with this index spells none; its first wrong field begins at byte `at`.
    Wrong { index: usize, at: u64 },
    Memory,
}

/// The objects that the texts spell.
pub fn read_objects(alloc: Global, texts: &[Vec<u8>]) -> Result<Vec<Object>, NoObjects>
    ensures objects { IfOk result (λ objects. SpellAll (map (λ text. text.items) texts.now) (map object_view objects.items)) }
    ensures wrong { IfErr result (λ none. IsWrong (map (λ text. text.items) texts.now) none) }
{
    let mut objects = Vec::new(alloc);
    'files: for (index, text) in texts.iter().enumerate() {
        let object = match read(alloc, text.as_slice()) {
            Ok(object) => object,
            Err(ObjectFault::BadObject { at }) => return Err(NoObjects::Wrong { index, at }),
            Err(ObjectFault::Memory) => return Err(NoObjects::Memory),
        };
        if objects.push(object).is_err() {
            return Err(NoObjects::Memory);
        }
    }
    Ok(objects)
}

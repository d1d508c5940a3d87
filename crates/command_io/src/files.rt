//! Files that are read, each within its limit.

ghost use Rattle.std.specs.Prelude.{◌≡◌, ◌≤◌, ◌<◌, [], ◌∷◌, ◌++◌, map, length, IfOk, IfErr, None, string_bytes, codes};
ghost use Rattle.std.specs.Option.{option_map};
ghost use Rattle.tx_host.specs.Told.{HostState};
ghost use Rattle.command_io.specs.Reads.{limit_of, kind_name, wanted, wanted_each, wanted_given, bytes_of, ReadsWithin, StopsReading, StopsBehind};

use std::alloc::{AllocError, Global};
use tx_host::{Host, ReadFault};

/// The greatest length of a source, in bytes.
pub const GREATEST_SOURCE: u64 = 1_048_576;

/// The greatest length of an input, in bytes.
pub const GREATEST_INPUT: u64 = 1_048_576;

/// The greatest length of the text of a schedule or of an order, in bytes.
pub const GREATEST_SCHEDULE: u64 = 16_777_216;

/// The greatest length of an object, in bytes.
pub const GREATEST_OBJECT: u64 = 16_777_216;

/// The greatest length of an assembly text, in bytes.
pub const GREATEST_ASSEMBLY: u64 = 16_777_216;

/// What a file is read as.
#[derive(Clone, Copy, Debug, PartialEq, Eq)]
pub enum FileKind {
    Source,
    Input,
    Schedule,
    Object,
    /// An assembly text.
    Text,
}

impl FileKind {
    /// The greatest length of such a file, in bytes.
    pub fn limit(self) -> u64
        ensures { result ≡ limit_of self }
    {
        match self {
            FileKind::Source => GREATEST_SOURCE,
            FileKind::Input => GREATEST_INPUT,
            FileKind::Schedule => GREATEST_SCHEDULE,
            FileKind::Object => GREATEST_OBJECT,
            FileKind::Text => GREATEST_ASSEMBLY,
        }
    }

    /// The name of its limit in a refusal.
    pub fn name(self) -> &'static str
        ensures { result.now ≡ kind_name self }
    {
        match self {
            FileKind::Source => "Source",
            FileKind::Input => "Input",
            FileKind::Schedule => "Schedule",
            FileKind::Object => "Object",
            FileKind::Text => "Text",
        }
    }
}

/// Why files were not read to the last.
#[derive(Clone, Copy, Debug, PartialEq, Eq)]
pub enum Unread {
    /// The file with this index has more bytes than its limit.
    TooLong { index: usize },
    /// A read failed.
    Failed,
    Memory,
}

// Reads the file with this index of a list.
fn read_at<H: Host>(
    alloc: Global,
    host: &mut H,
    name: &str,
    kind: FileKind,
    index: usize,
) -> Result<Vec<u8>, Unread>
    ensures read { IfOk result (λ bytes. ReadsWithin (H.state host.old) (wanted kind name.now ∷ []) (bytes.items ∷ []) (H.state host.new)) }
    ensures unread { IfErr result (StopsBehind index (H.state host.old) (wanted kind name.now ∷ []) (H.state host.new)) }
{
    let bytes = match host.read_file(alloc, name, kind.limit()) {
        Ok(bytes) => bytes,
        Err(ReadFault::Failed) => return Err(Unread::Failed),
        Err(ReadFault::Memory) => return Err(Unread::Memory),
    };
    if bytes.len() as u64 > kind.limit() {
        return Err(Unread::TooLong { index });
    }
    Ok(bytes)
}

/// Reads a file.
pub fn read_file<H: Host>(
    alloc: Global,
    host: &mut H,
    name: &str,
    kind: FileKind,
) -> Result<Vec<u8>, Unread>
    ensures read { IfOk result (λ bytes. ReadsWithin (H.state host.old) (wanted kind name.now ∷ []) (bytes.items ∷ []) (H.state host.new)) }
    ensures unread { IfErr result (StopsReading (H.state host.old) (wanted kind name.now ∷ []) (H.state host.new)) }
{
    match read_at(alloc, host, name, kind, 0) {
        Ok(bytes) => Ok(bytes),
        Err(unread) => Err(unread),
    }
}

/// Reads a file where one is named; else the text is empty.
pub fn read_given<H: Host>(
    alloc: Global,
    host: &mut H,
    name: &Option<String>,
    kind: FileKind,
) -> Result<Vec<u8>, Unread>
    ensures read { IfOk result (λ bytes. ReadsWithin (H.state host.old) (wanted_given kind (option_map string_bytes name.now)) (bytes_of (option_map string_bytes name.now) bytes.items) (H.state host.new)) }
    ensures unread { IfErr result (StopsReading (H.state host.old) (wanted_given kind (option_map string_bytes name.now)) (H.state host.new)) }
    ensures empty { IfOk result (λ bytes. option_map string_bytes name.now ≡ None → bytes.items ≡ []) }
{
    match name {
        Some(name) => read_file(alloc, host, name.as_str(), kind),
        None => Ok(Vec::new(alloc)),
    }
}

/// Reads files in order.
pub fn read_each<H: Host>(
    alloc: Global,
    host: &mut H,
    names: &[String],
    kind: FileKind,
) -> Result<Vec<Vec<u8>>, Unread>
    ensures read { IfOk result (λ texts. ReadsWithin (H.state host.old) (wanted_each kind (map string_bytes names.now)) (map (λ text. text.items) texts.items) (H.state host.new)) }
    ensures unread { IfErr result (StopsReading (H.state host.old) (wanted_each kind (map string_bytes names.now)) (H.state host.new)) }
{
    let mut texts = Vec::new(alloc);
    'files: for (index, name) in names.iter().enumerate() {
        let text = match read_at(alloc, host, name.as_str(), kind, index) {
            Ok(text) => text,
            Err(unread) => return Err(unread),
        };
        if texts.push(text).is_err() {
            return Err(Unread::Memory);
        }
    }
    Ok(texts)
}

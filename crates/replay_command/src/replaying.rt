//! The command.

ghost use Rattle.std.specs.Prelude.{◌≡◌, ◌≤◌, map, length, string_bytes};
ghost use Rattle.replay_command.specs.Replays.{DecidesOn, wants_of, Replays};
ghost use Rattle.tx_answers.specs.Ends.{Ends};

use crate::steps::decided;
use command_io::{FileKind, read_each, read_file, read_given};
use source_verdict::limits::{MOST_SOURCES, too_many_sources};
use std::alloc::Global;
use tx_answers::{Answer, halt_among, halt_given, halt_named, settle};
use tx_host::Host;
use tx_words::Replay;

// Reads the files, decides on their texts, and writes.
fn on_files<H: Host>(alloc: Global, words: &Replay, host: &mut H) -> Answer
    ensures { Ends (wants_of words.now) (DecidesOn words.now) (H.state host.old) (H.state host.new) result }
{
    let names = words.sources.as_slice();
    let texts = match read_each(alloc, host, names, FileKind::Source) {
        Ok(texts) => texts,
        Err(unread) => return halt_among(alloc, host, names, FileKind::Source, unread),
    };
    let input_file = &words.input_file;
    let input = match read_given(alloc, host, input_file, FileKind::Input) {
        Ok(input) => input,
        Err(unread) => return halt_given(alloc, host, input_file, FileKind::Input, unread),
    };
    let order_file = words.order_file.as_str();
    let order = match read_file(alloc, host, order_file, FileKind::Schedule) {
        Ok(order) => order,
        Err(unread) => return halt_named(alloc, host, order_file, FileKind::Schedule, unread),
    };
    settle(
        host,
        decided(
            alloc,
            words,
            texts.as_slice(),
            input.as_slice(),
            order.as_slice(),
        ),
    )
}

/// Reads the sources of the command, at most 16, its input and its order; the sources are checked, compiled and linked, and the order is replayed on them.
/// The first refusal on this way is written.
pub fn replay<H: Host>(alloc: Global, words: &Replay, host: &mut H) -> Answer
    ensures { Replays words.now (H.state host.old) (H.state host.new) result }
{
    if words.sources.len() > MOST_SOURCES {
        return settle(host, too_many_sources(alloc));
    }
    on_files(alloc, words, host)
}

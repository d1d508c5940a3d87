//! The command `check`.

ghost use Rattle.std.specs.Prelude.{◌≡◌, ◌≤◌, [], ◌∷◌, map, length, codes, IfOk, string_bytes, false};
ghost use Rattle.command_io.specs.Writes.{written_of, to_out};
ghost use Rattle.tx_answers.specs.declared.answer.Status.TheVariants as status;
ghost use Rattle.tx_answers.specs.Ends.{Ends, bare};
ghost use Rattle.check_command.specs.Check.{Checks, DecidesTexts, wants_of, Accepted};
ghost use Rattle.tx_safety.specs.Answers.{checked_in};

use command_io::{FileKind, Write, read_each};
use source_verdict::limits::{MOST_SOURCES, too_many_sources};
use source_verdict::{Verdict, verdict_of};
use std::alloc::{AllocError, Global};
use tree_dump::dump;
use tx_answers::{Answer, Decision, Status, bare, halt_among, settle};
use tx_host::Host;
use tx_safety::SafeProgram;
use tx_words::Check;

// The typed program as text.
fn dumped(alloc: Global, safe: &SafeProgram, texts: &[Vec<u8>]) -> Result<Vec<u8>, AllocError> {
    let mut slices = Vec::new(alloc);
    for text in texts {
        slices.push(text.as_slice())?;
    }
    dump(alloc, safe.program(), slices.as_slice())
}

// What is written of a program that is accepted.
fn text_of(
    alloc: Global,
    dumps: bool,
    safe: &SafeProgram,
    texts: &[Vec<u8>],
) -> Result<Vec<u8>, AllocError>
    ensures { IfOk result (λ text. dumps ≡ false → text.items ≡ codes "ok\n") }
{
    if dumps {
        dumped(alloc, safe, texts)
    } else {
        b"ok\n".to_vec(alloc)
    }
}

// The sources are accepted.
fn accepted(
    alloc: Global,
    dumps: bool,
    safe: &SafeProgram,
    texts: &[Vec<u8>],
) -> Result<Decision, AllocError>
    ensures { IfOk result (λ d. Accepted dumps d.answer (map written_of d.writes.items)) }
{
    let text = text_of(alloc, dumps, safe, texts)?;
    let writes = vec![in alloc; Write::Out(text)]?;
    Ok(Decision {
        answer: bare(Status::Done),
        writes,
    })
}

// What the command decides on the texts of its files.
fn decided(alloc: Global, check: &Check, texts: &[Vec<u8>]) -> Result<Decision, AllocError>
    ensures { IfOk result (λ d. DecidesTexts check.now (map (λ text. text.items) texts.now) d.answer (map written_of d.writes.items)) }
{
    match verdict_of(alloc, check.sources.as_slice(), texts)? {
        Verdict::Accepted(safe) => accepted(alloc, check.dump, &safe, texts),
        Verdict::Refused(decision) => Ok(decision),
    }
}

// Reads the files, decides on their texts, and writes.
fn on_files<H: Host>(alloc: Global, check: &Check, host: &mut H) -> Answer
    ensures { Ends (wants_of check.now) (DecidesTexts check.now) (H.state host.old) (H.state host.new) result }
{
    let names = check.sources.as_slice();
    let texts = match read_each(alloc, host, names, FileKind::Source) {
        Ok(texts) => texts,
        Err(unread) => return halt_among(alloc, host, names, FileKind::Source, unread),
    };
    settle(host, decided(alloc, check, texts.as_slice()))
}

/// Reads the sources of the command, at most 16, and writes `ok`, or their typed program where that is asked for; or the first refusal of them, in one line. Nothing is linked.
pub fn check<H: Host>(alloc: Global, check: &Check, host: &mut H) -> Answer
    ensures { Checks check.now (H.state host.old) (H.state host.new) result }
{
    if check.sources.len() > MOST_SOURCES {
        return settle(host, too_many_sources(alloc));
    }
    on_files(alloc, check, host)
}

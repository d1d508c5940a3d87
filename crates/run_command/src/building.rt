//! The command `build`.

ghost use Rattle.std.specs.Prelude.{◌≡◌, ◌<◌, [], ◌∷◌, map, length, IfOk, string_bytes};
ghost use Rattle.command_io.specs.Reads.{wanted};
ghost use Rattle.command_io.specs.Writes.{written_of};
ghost use Rattle.command_io.specs.declared.files.FileKind.TheVariants as kind;
ghost use Rattle.cpp_tree.specs.Units.{program_of};
ghost use Rattle.cpp_tree.specs.WellFormed.{WellFormed};
ghost use Rattle.tree_fold.specs.Declaring.{DeclaresPlainly};
ghost use Rattle.tx_safety.specs.Answers.{checked_in};
ghost use Rattle.tx_safety.specs.Safe.{IsSafe};
ghost use Rattle.run_command.specs.Commands.{CompilesAndPuts, DecidesBuild, Puts, PutsUnit};
ghost use Rattle.tx_answers.specs.Ends.{Ends, on_one};
ghost use Rattle.tx_code.specs.Objects.{object_view};
ghost use Rattle.tx_code.specs.WellFormed.{IsObject};

use crate::steps::folded_if;
use command_io::{FileKind, Write, read_file};
use object_bytes::write;
use source_verdict::laws::accepted_declares_plainly;
use source_verdict::{Verdict, verdict_of};
use std::alloc::{AllocError, Global};
use tx_answers::{Answer, Decision, Status, bare, halt, over_limit, settle};
use tx_code::Object;
use tx_host::Host;
use tx_safety::SafeProgram;
use unit_objects::unit_object;

// The bytes of the object are written to this file. One that has more than may be read is refused.
fn put(alloc: Global, to: &str, object: &Object) -> Result<Decision, AllocError>
    requires { IsObject (object_view object.now) }
    ensures { IfOk result (λ d. Puts to.now (object_view object.now) d.answer (map written_of d.writes.items)) }
{
    let bytes = write(alloc, object)?;
    if bytes.len() as u64 > FileKind::Object.limit() {
        return over_limit(alloc, to, FileKind::Object);
    }
    let name = String::from_str(alloc, to)?;
    let writes = vec![in alloc; Write::File { name, bytes }]?;
    Ok(Decision {
        answer: bare(Status::Done),
        writes,
    })
}

// The object of a program of one unit is written.
fn put_program(
    alloc: Global,
    safe: &SafeProgram,
    name: &str,
    to: &str,
    text: &[u8],
) -> Result<Decision, AllocError>
    ensures { IfOk result (λ d. PutsUnit (checked_in safe.now) name.now to.now d.answer (map written_of d.writes.items)) }
{
    // The program of one source has its unit.
    if safe.program().units.is_empty() {
        return Err(AllocError);
    }
    let object = unit_object(alloc, safe, 0, name.as_bytes(), text)?;
    put(alloc, to, &object)
}

// The unit of an accepted source is compiled.
fn built(
    alloc: Global,
    fold: bool,
    safe: SafeProgram,
    name: &str,
    to: &str,
    text: &[u8],
) -> Result<Decision, AllocError>
    requires well_formed { WellFormed (checked_in safe) }
    requires safe { IsSafe (program_of (checked_in safe)) }
    requires plain { DeclaresPlainly (program_of (checked_in safe)) }
    ensures { IfOk result (λ d. CompilesAndPuts fold (checked_in safe) name.now to.now d.answer (map written_of d.writes.items)) }
{
    let program = folded_if(alloc, fold, safe)?;
    put_program(alloc, &program, name, to, text)
}

// A list of one name.
fn one_name(alloc: Global, name: &str) -> Result<Vec<String>, AllocError>
    ensures { IfOk result (λ names. map string_bytes names.items ≡ name.now ∷ []) }
{
    let name = String::from_str(alloc, name)?;
    Ok(vec![in alloc; name]?)
}

// A list of one text.
fn one_text(alloc: Global, text: &[u8]) -> Result<Vec<Vec<u8>>, AllocError>
    ensures { IfOk result (λ texts. map (λ t. t.items) texts.items ≡ text.now ∷ []) }
{
    let text = text.to_vec(alloc)?;
    Ok(vec![in alloc; text]?)
}

// What the command decides on the text of its file.
fn decided(
    alloc: Global,
    fold: bool,
    name: &str,
    to: &str,
    text: &[u8],
) -> Result<Decision, AllocError>
    ensures { IfOk result (λ d. DecidesBuild fold name.now to.now text.now d.answer (map written_of d.writes.items)) }
{
    let names = one_name(alloc, name)?;
    let texts = one_text(alloc, text)?;
    accepted_declares_plainly();
    match verdict_of(alloc, names.as_slice(), texts.as_slice())? {
        Verdict::Accepted(safe) => built(alloc, fold, safe, name, to, text),
        Verdict::Refused(decision) => Ok(decision),
    }
}

/// Reads the source of the command, and writes the object that it is compiled to, with `fold` that of its folded program; or the first refusal of the source.
/// An object of more than 16,777,216 bytes, which no command reads, is refused too. Nothing is linked.
pub fn build<H: Host>(alloc: Global, fold: bool, name: &str, to: &str, host: &mut H) -> Answer
    ensures { Ends (wanted kind.Source name.now ∷ []) (on_one (DecidesBuild fold name.now to.now)) (H.state host.old) (H.state host.new) result }
{
    match read_file(alloc, host, name, FileKind::Source) {
        Ok(text) => settle(host, decided(alloc, fold, name, to, text.as_slice())),
        Err(unread) => halt(alloc, host, name, FileKind::Source, unread),
    }
}

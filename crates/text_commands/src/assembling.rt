//! The command `asm`.

ghost use Rattle.std.specs.Prelude.{◌≡◌, ◌++◌, [], ◌∷◌, map, codes, IfOk, string_bytes, ℕ, List};
ghost use Rattle.std.specs.Fmt.{decimal};
ghost use Rattle.command_io.specs.Reads.{wanted};
ghost use Rattle.command_io.specs.Writes.{written_of, to_file};
ghost use Rattle.command_io.specs.declared.files.FileKind.TheVariants as kind;
ghost use Rattle.tx_code.specs.Objects.{object_view};
ghost use Rattle.tx_code.specs.WellFormed.{IsObject};
ghost use Rattle.object_bytes.specs.Spelling.{object_bytes};
ghost use Rattle.tx_answers.specs.declared.answer.Status.TheVariants as status;
ghost use Rattle.tx_answers.specs.Ends.{Ends, Refuses, bare, on_one};
ghost use Rattle.text_commands.specs.TextCommands.{Assembles, bad_asm_line};

use code_asm::{AsmFault, assemble};
use command_io::{FileKind, Write, read_file};
use object_bytes::write;
use std::alloc::{AllocError, Global};
use tx_answers::{Answer, Decision, Status, bare, halt, refusal, settle};
use tx_code::Object;
use tx_host::Host;

/// The number of the refusal of a text that writes no object.
const BAD_ASM: u8 = 14;

// The line of a text that writes no object.
fn bad_asm_text(alloc: Global, file: &str, line: u64) -> Result<String, AllocError>
    ensures { IfOk result (λ text. string_bytes text ≡ bad_asm_line file.now line) }
{
    format!(in alloc; "{file}:{line}: BadAsm")
}

// The refusal of a text that writes no object.
fn bad_asm(alloc: Global, file: &str, line: u64) -> Result<Decision, AllocError>
    ensures { IfOk result (λ d. Refuses 14 (bad_asm_line file.now line) status.Refused d.answer (map written_of d.writes.items)) }
{
    let text = bad_asm_text(alloc, file, line)?;
    refusal(alloc, BAD_ASM, text.into_bytes(), Status::Refused)
}

// The bytes of the object are written to this file.
fn written(alloc: Global, to: &str, object: &Object) -> Result<Decision, AllocError>
    requires { IsObject (object_view object.now) }
    ensures answer { IfOk result (λ d. d.answer ≡ bare status.Done) }
    ensures writes { IfOk result (λ d. map written_of d.writes.items ≡ to_file to.now (object_bytes (object_view object.now)) ∷ []) }
{
    let bytes = write(alloc, object)?;
    let name = String::from_str(alloc, to)?;
    let writes = vec![in alloc; Write::File { name, bytes }]?;
    Ok(Decision {
        answer: bare(Status::Done),
        writes,
    })
}

// What the command decides on the text of its file.
fn decided(alloc: Global, file: &str, to: &str, text: &[u8]) -> Result<Decision, AllocError>
    ensures { IfOk result (λ d. Assembles file.now to.now text.now d.answer (map written_of d.writes.items)) }
{
    match assemble(alloc, text) {
        Ok(object) => written(alloc, to, &object),
        Err(AsmFault::BadAsm { line }) => bad_asm(alloc, file, line),
        Err(AsmFault::Memory) => Err(AllocError),
    }
}

/// Writes the object of an assembly text to the file `to`.
pub fn asm<H: Host>(alloc: Global, file: &str, to: &str, host: &mut H) -> Answer
    ensures { Ends (wanted kind.Text file.now ∷ []) (on_one (Assembles file.now to.now)) (H.state host.old) (H.state host.new) result }
{
    match read_file(alloc, host, file, FileKind::Text) {
        Ok(text) => settle(host, decided(alloc, file, to, text.as_slice())),
        Err(unread) => halt(alloc, host, file, FileKind::Text, unread),
    }
}

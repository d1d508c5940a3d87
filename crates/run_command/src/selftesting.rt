//! The command `selftest`.

ghost use Rattle.std.specs.Prelude.{◌≡◌, ◌≤◌, [], ◌∷◌, map, IfOk, string_bytes, codes};
ghost use Rattle.command_io.specs.Writes.{written_of};
ghost use Rattle.prog_gen.specs.Program.{program as program_text};
ghost use Rattle.run_command.specs.Commands.{DecidesSelftest, AreDefaults};
ghost use Rattle.tx_answers.specs.Ends.{Ends};

use crate::steps::with_texts;
use prog_gen::program;
use std::alloc::{AllocError, Global};
use tx_answers::{Answer, Decision, settle};
use tx_host::Host;
use tx_words::{PickerName, PolicyName, RunOptions};

// The options that a run has where none is given.
fn defaults() -> RunOptions
    ensures { AreDefaults result }
{
    RunOptions {
        steps: 4_000_000,
        input_file: None,
        picker: PickerName::Round(1),
        policy: PolicyName::Older,
        order_file: None,
        record_file: None,
    }
}

// The name of the generated source, in a list.
fn names(alloc: Global) -> Result<Vec<String>, AllocError>
    ensures { IfOk result (λ names. map string_bytes names.items ≡ codes "selftest" ∷ []) }
{
    let name = String::from_str(alloc, "selftest")?;
    Ok(vec![in alloc; name]?)
}

// The generated text, in a list.
fn texts(alloc: Global, n: u32) -> Result<Vec<Vec<u8>>, AllocError>
    requires least { 1 ≤ n }
    requires most { n ≤ 400 }
    ensures { IfOk result (λ texts. map (λ t. t.items) texts.items ≡ program_text n ∷ []) }
{
    let text = program(alloc, n)?;
    Ok(vec![in alloc; text]?)
}

// What the command decides.
fn decided(alloc: Global, n: u32) -> Result<Decision, AllocError>
    requires least { 1 ≤ n }
    requires most { n ≤ 400 }
    ensures { IfOk result (λ d. DecidesSelftest n [] d.answer (map written_of d.writes.items)) }
{
    let names = names(alloc)?;
    let texts = texts(alloc, n)?;
    let options = defaults();
    let input = Vec::new(alloc);
    with_texts(
        alloc,
        &options,
        false,
        names.as_slice(),
        texts.as_slice(),
        input,
        &[],
    )
}

/// Runs the program that is generated from a number as one source named `selftest`, with the options that a run has by default. No file is read, and the input is empty.
pub fn selftest<H: Host>(alloc: Global, n: u32, host: &mut H) -> Answer
    requires least { 1 ≤ n }
    requires most { n ≤ 400 }
    ensures { Ends [] (DecidesSelftest n) (H.state host.old) (H.state host.new) result }
{
    settle(host, decided(alloc, n))
}

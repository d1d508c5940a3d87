//! What is decided on texts: the verdict, and the run of what accepted sources are compiled to, with its races.

ghost use Rattle.std.specs.Prelude.{◌≡◌, map, IfOk, true, nat_lt, string_bytes};
ghost use Rattle.std.specs.List.{list_all};
ghost use Rattle.run_command.specs.command_io.Writes.{written_of};
ghost use Rattle.run_command.specs.exec_command.Exec.{CanRun};
ghost use Rattle.run_command.specs.tx_events.declared.TheConstants.{THREAD_LIMIT};
ghost use Rattle.run_command.specs.cpp_tree.Units.{program_of};
ghost use Rattle.run_command.specs.cpp_tree.WellFormed.{WellFormed};
ghost use Rattle.tree_fold.specs.Declaring.{DeclaresPlainly};
ghost use Rattle.run_command.specs.tx_safety.Answers.{checked_in};
ghost use Rattle.run_command.specs.tx_safety.Safe.{IsSafe};
ghost use Rattle.races_command.specs.Commands.{CompilesAndRaces, DecidesTexts, RacesLinked};

use object_races::with_objects;
use run_command::below::{
    Decision, RunOptions, SafeProgram, Verdict, accepted_declares_plainly, unit_objects, verdict_of,
};
use run_command::laws::runs_of_compiled;
use run_command::{folded_if, held_against_source};
use src_bind::Choices;
use src_link::choices;
use std::alloc::{AllocError, Global};

// The objects of a program are run, and the races of the run are reported; the run is held against the source, linked by these choices.
fn run_program(
    alloc: Global,
    options: &RunOptions,
    file: &str,
    safe: &SafeProgram,
    choices: &Choices,
    names: &[String],
    texts: &[Vec<u8>],
    input: Vec<u8>,
    entries: &[u8],
) -> Result<Decision, AllocError>
    requires options { CanRun options.now }
    requires threads { list_all (λ t. nat_lt t THREAD_LIMIT) entries.now ≡ true }
    ensures { IfOk result (λ d. RacesLinked options.now file.now (record { program = checked_in safe.now; choices = choices.now }) (map string_bytes names.now) input.items entries.now d.answer (map written_of d.writes.items)) }
{
    let objects = unit_objects(alloc, safe, names, texts)?;
    let given = Vec::from_slice(alloc, input.as_slice())?;
    let decision = with_objects(alloc, options, file, objects.as_slice(), given, entries)?;
    held_against_source(
        alloc,
        safe.program(),
        choices,
        objects.as_slice(),
        input.as_slice(),
        decision,
    )
}

// A program that is accepted is compiled, with `fold` the program that it folds to, and run. A folded program is linked by the choices of the
// program that it was folded from.
fn compiled(
    alloc: Global,
    options: &RunOptions,
    fold: bool,
    file: &str,
    safe: SafeProgram,
    names: &[String],
    texts: &[Vec<u8>],
    input: Vec<u8>,
    entries: &[u8],
) -> Result<Decision, AllocError>
    requires options { CanRun options.now }
    requires threads { list_all (λ t. nat_lt t THREAD_LIMIT) entries.now ≡ true }
    requires well_formed { WellFormed (checked_in safe) }
    requires safe { IsSafe (program_of (checked_in safe)) }
    requires plain { DeclaresPlainly (program_of (checked_in safe)) }
    ensures { IfOk result (λ d. CompilesAndRaces options.now fold file.now (checked_in safe) (map string_bytes names.now) input.items entries.now d.answer (map written_of d.writes.items)) }
{
    let choices = choices(alloc, &safe)?;
    let program = folded_if(alloc, fold, safe)?;
    runs_of_compiled();
    run_program(
        alloc, options, file, &program, &choices, names, texts, input, entries,
    )
}

/// What is decided on texts whose files have these names; the report is written to `file`.
pub fn with_texts(
    alloc: Global,
    options: &RunOptions,
    fold: bool,
    file: &str,
    names: &[String],
    texts: &[Vec<u8>],
    input: Vec<u8>,
    entries: &[u8],
) -> Result<Decision, AllocError>
    requires options { CanRun options.now }
    requires threads { list_all (λ t. nat_lt t THREAD_LIMIT) entries.now ≡ true }
    ensures { IfOk result (λ d. DecidesTexts options.now fold file.now (map string_bytes names.now) (map (λ text. text.items) texts.now) input.items entries.now d.answer (map written_of d.writes.items)) }
{
    accepted_declares_plainly();
    match verdict_of(alloc, names, texts)? {
        Verdict::Accepted(safe) => compiled(
            alloc, options, fold, file, safe, names, texts, input, entries,
        ),
        Verdict::Refused(decision) => Ok(decision),
    }
}

//! What is decided on texts: the verdict, and the run of what accepted sources are compiled to.

ghost use Rattle.std.specs.Prelude.{◌≡◌, map, IfOk, true, nat_lt, string_bytes};
ghost use Rattle.std.specs.List.{list_all};
ghost use Rattle.command_io.specs.Writes.{written_of};
ghost use Rattle.exec_command.specs.Exec.{CanRun};
ghost use Rattle.cpp_tree.specs.tx_events.declared.TheConstants.{THREAD_LIMIT};
ghost use Rattle.cpp_tree.specs.Units.{program_of};
ghost use Rattle.cpp_tree.specs.WellFormed.{WellFormed};
ghost use Rattle.tree_fold.specs.Declaring.{DeclaresPlainly};
ghost use Rattle.tx_safety.specs.Answers.{checked_in};
ghost use Rattle.tx_safety.specs.Safe.{IsSafe};
ghost use Rattle.run_command.specs.Runs.{Compiled, CompilesAndRuns, DecidesTexts, RunsLinked};

use crate::laws::runs_of_compiled;
use held_runs::run_objects;
use source_verdict::laws::accepted_declares_plainly;
use source_verdict::{Verdict, verdict_of};
use src_bind::Choices;
use src_link::choices;
use std::alloc::{AllocError, Global};
use tx_answers::Decision;
use tx_safety::SafeProgram;
use tx_words::RunOptions;
use unit_objects::unit_objects;

/// What is compiled of a program: with `fold` the program that it folds to.
pub fn folded_if(alloc: Global, fold: bool, safe: SafeProgram) -> Result<SafeProgram, AllocError>
    requires well_formed { WellFormed (checked_in safe) }
    requires safe { IsSafe (program_of (checked_in safe)) }
    requires plain { DeclaresPlainly (program_of (checked_in safe)) }
    ensures { IfOk result (λ q. Compiled fold (checked_in safe) (checked_in q)) }
{
    if !fold {
        return Ok(safe);
    }
    program_fold::fold(alloc, safe)
}

// The objects of a program are run, and what was run is a run of the source, linked by these choices.
fn run_program(
    alloc: Global,
    options: &RunOptions,
    safe: &SafeProgram,
    choices: &Choices,
    names: &[String],
    texts: &[Vec<u8>],
    input: Vec<u8>,
    entries: &[u8],
) -> Result<Decision, AllocError>
    requires options { CanRun options.now }
    requires threads { list_all (λ t. nat_lt t THREAD_LIMIT) entries.now ≡ true }
    ensures { IfOk result (λ d. RunsLinked options.now (record { program = checked_in safe.now; choices = choices.now }) (map string_bytes names.now) input.items entries.now d.answer (map written_of d.writes.items)) }
{
    let objects = unit_objects(alloc, safe, names, texts)?;
    run_objects(
        alloc,
        options,
        safe.program(),
        choices,
        objects.as_slice(),
        input,
        entries,
    )
}

// A program that is accepted is compiled and run. A folded program is linked by the choices of the program that it was folded from.
fn compiled(
    alloc: Global,
    options: &RunOptions,
    fold: bool,
    safe: SafeProgram,
    names: &[String],
    texts: &[Vec<u8>],
    input: Vec<u8>,
    entries: &[u8],
) -> Result<Decision, AllocError>
    requires options { CanRun options.now }
    requires threads { list_all (λ t. nat_lt t THREAD_LIMIT) entries.now ≡ true }
    requires well_formed { WellFormed (checked_in safe) }
    requires safe { IsSafe (program_of (checked_in safe)) }
    requires plain { DeclaresPlainly (program_of (checked_in safe)) }
    ensures { IfOk result (λ d. CompilesAndRuns options.now fold (checked_in safe) (map string_bytes names.now) input.items entries.now d.answer (map written_of d.writes.items)) }
{
    let choices = choices(alloc, &safe)?;
    let program = folded_if(alloc, fold, safe)?;
    runs_of_compiled();
    run_program(
        alloc, options, &program, &choices, names, texts, input, entries,
    )
}

/// What is decided on texts whose files have these names.
pub fn with_texts(
    alloc: Global,
    options: &RunOptions,
    fold: bool,
    names: &[String],
    texts: &[Vec<u8>],
    input: Vec<u8>,
    entries: &[u8],
) -> Result<Decision, AllocError>
    requires options { CanRun options.now }
    requires threads { list_all (λ t. nat_lt t THREAD_LIMIT) entries.now ≡ true }
    ensures { IfOk result (λ d. DecidesTexts options.now fold (map string_bytes names.now) (map (λ text. text.items) texts.now) input.items entries.now d.answer (map written_of d.writes.items)) }
{
    accepted_declares_plainly();
    match verdict_of(alloc, names, texts)? {
        Verdict::Accepted(safe) => compiled(
            alloc, options, fold, safe, names, texts, input, entries,
        ),
        Verdict::Refused(decision) => Ok(decision),
    }
}

//! What holds of compiled programs. A function here does nothing: its clause is the law.

ghost use Rattle.std.specs.Prelude.{ℕ, Bool, List};
ghost use Rattle.cpp_tree.specs.Units.{program_of};
ghost use Rattle.cpp_tree.specs.WellFormed.{WellFormed};
ghost use Rattle.cpp_tree.specs.declared.program.Program.{Program};
ghost use Rattle.bounded_runs.specs.BoundedRuns.{IsOfLinked, IsOfSource};
ghost use Rattle.command_io.specs.Writes.{Written};
ghost use Rattle.run_command.specs.Completes.{Completed};
ghost use Rattle.run_command.specs.Runs.{DecidesTexts, IsCompiled};
ghost use Rattle.source_verdict.specs.Nested.{HasNested};
ghost use Rattle.source_verdict.specs.Verdict.{Accepts};
ghost use Rattle.src_bind.specs.declared.choices.Choices.{Choices};
ghost use Rattle.src_link.specs.Slots.{AreChoices};
ghost use Rattle.tx_answers.specs.declared.answer.Answer.{Answer};
ghost use Rattle.tx_words.specs.declared.command.RunOptions.{RunOptions};

use fold_events::laws::{same_bound, same_memory};
use source_verdict::laws::{one_program, one_verdict};

/// What was run of a compiled program is a run of the program that it was compiled from, within its turn bound: folding keeps each
/// run, and no replay of the folded program costs more.
pub fn runs_of_compiled()
    ensures { (fold : Bool) (p q : Program) (c : Choices) (input : List ℕ) (a : Answer) → WellFormed p → IsCompiled fold p q → AreChoices (program_of p) c → IsOfLinked (record { program = q; choices = c }) input a → IsOfSource p input a }
{
    same_bound();
    same_memory();
}

/// What `run` and `selftest` decide on accepted texts of which no token stands too deep: the objects of their units can't
/// be linked, with the first fault of linking; or they are run, and the answer is that of the run. No other refusal comes.
pub fn accepted_is_run()
    ensures { (o : RunOptions) (fold : Bool) (names texts : List (List ℕ)) (input entries : List ℕ) (p : Program) (a : Answer) (writes : List Written) → Accepts texts p → (HasNested texts → ⊥) → DecidesTexts o fold names texts input entries a writes → Completed fold p names a writes }
{
    one_program();
    one_verdict();
}

//! Laws of the definitions. A function here does nothing: its clause is the law.

ghost use Rattle.std.specs.Prelude.{ℕ, List};
ghost use Rattle.choosers.specs.Answers.{PolicyName};
ghost use Rattle.choosers.specs.Picks.{PickerName};
ghost use Rattle.choosers.specs.Picks.PickerName.{Listed};
ghost use Rattle.tx_code.specs.Images.{ImageView};
ghost use Rattle.tx_machine.specs.declared.run.Ran.{Ran};
ghost use Rattle.vm_thread.specs.declared.thread.Here.{Here};
ghost use Rattle.named_runs.specs.NamedRuns.{IsNamedRun, IsSameRan};

/// Equal replay: a run of the same image, input, policy and bound, whose schedule is the picks that were recorded of another
/// run, comes to the same.
pub fn equal_replay()
    ensures { (image : ImageView) (picker : PickerName) (policy : PolicyName) (bound : ℕ) (input : List ℕ) (ran again : Ran Here) →
        IsNamedRun image picker policy bound input ran → IsNamedRun image (Listed ran.picked.items) policy bound input again → IsSameRan again ran }
{}

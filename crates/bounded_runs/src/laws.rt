//! The other way to know it. A function here does nothing: its clause is the law.

ghost use Rattle.std.specs.Prelude.{◌≤◌, ℕ, List};
ghost use Rattle.body_check.specs.Notes.{Bounds};
ghost use Rattle.bounded_runs.specs.BoundedRuns.{IsRunOf};
ghost use Rattle.choosers.specs.Answers.{PolicyName};
ghost use Rattle.choosers.specs.Picks.{PickerName};
ghost use Rattle.linked_images.specs.LinkedImages.{IsLinkedBy};
ghost use Rattle.named_runs.specs.NamedRuns.{IsNamedRun};
ghost use Rattle.src_bind.specs.Tables.{Given};
ghost use Rattle.tx_code.specs.Images.{ImageView, IsImage};
ghost use Rattle.tx_code.specs.Sound.{Sound};
ghost use Rattle.tx_machine.specs.declared.run.Ran.{Ran};
ghost use Rattle.vm_thread.specs.declared.thread.Here.{Here};

use linked_runs::laws::runs_of_linked_images;
use turn_bounds::linked::runs_of_images_that_stay_alone;

/// Each run of a sound image that is linked from a program, with notes that allow at most 63 steps before the source takes one
/// more, is a run of the program's source, and keeps the turn bound.
pub fn linked_images_keep_the_turn_bound()
    ensures { (g : Given) (i : ImageView) (b : Bounds) → IsLinkedBy g i b → b.most ≤ 63 → IsImage i → Sound i → (picker : PickerName) (policy : PolicyName) (bound : ℕ) (input : List ℕ) (ran : Ran Here) → IsNamedRun i picker policy bound input ran → IsRunOf g input ran }
{
    runs_of_linked_images();
    runs_of_images_that_stay_alone();
}

//! Turns and runs of linked images. A function here does nothing: its clauses are the laws.

ghost use Rattle.std.specs.Prelude.{◌≡◌, ◌≤◌, ◌+◌, ◌*◌, ℕ, true, false, List, Some};
ghost use Rattle.body_check.specs.Notes.{Bounds};
ghost use Rattle.body_check.specs.Calls.{Book};
ghost use Rattle.choosers.specs.Answers.{PolicyName};
ghost use Rattle.choosers.specs.Picks.{PickerName};
ghost use Rattle.choosers.specs.declared.Clash.{Clash};
ghost use Rattle.choosers.specs.declared.Choice.{Choice};
ghost use Rattle.linked_images.specs.LinkedImages.{IsLinkedFrom};
ghost use Rattle.named_runs.specs.NamedRuns.{IsNamedRun};
ghost use Rattle.src_bind.specs.Tables.{Given};
ghost use Rattle.tx_code.specs.Images.{ImageView, IsImage};
ghost use Rattle.tx_code.specs.Sound.{Sound};
ghost use Rattle.tx_events.specs.declared.End.{End};
ghost use Rattle.tx_events.specs.declared.End.TheVariants.{StepsOut};
ghost use Rattle.tx_machine.specs.ImageRuns.{layout_of_image, machine_at_main};
ghost use Rattle.tx_machine.specs.declared.run.Ran.{Ran};
ghost use Rattle.tx_serial.specs.Bound.{is_waiting, zeros};
ghost use Rattle.tx_serial.specs.Turn.{Slot, turns, turn};
ghost use Rattle.vm_thread.specs.Threads.{running};
ghost use Rattle.vm_thread.specs.declared.thread.Here.{Here};
ghost use Rattle.turn_bounds.specs.Alone.{zeros_in, picks_started};
ghost use Rattle.turn_bounds.specs.Linked.{EndsAloneIn, RanSo};
ghost use Rattle.turn_bounds.specs.Checked.{enough_for, EndsSo};

/// A program that spawns nothing and whose source ends at cost n: a machine that runs a sound image linked from it has come to
/// that end with that output once thread 0 has had `66 * n + 64` turns, where the notes of its bodies allow at most 63 steps
/// more; with other notes, once it has had `enough_for b n` of them. Whatever the turns, no other end comes, and no turn is
/// Waited, Rolled, BlockWait or JoinWait, whatever the policy answers.
pub fn turns_of_linked_images()
    ensures units { (g : Given) (i : ImageView) (b : Bounds) (book : Book) → IsLinkedFrom g i b book → IsImage i → Sound i → b.most ≤ 63 →
        (input : List ℕ) (n : ℕ) (out : List ℕ) (end : End) → EndsAloneIn g input n out end → (slots : List Slot) → 66 * n + 64 ≤ zeros slots →
        EndsSo (layout_of_image i) (machine_at_main i input) slots out end }
    ensures ends { (g : Given) (i : ImageView) (b : Bounds) (book : Book) → IsLinkedFrom g i b book → IsImage i → Sound i →
        (input : List ℕ) (n : ℕ) (out : List ℕ) (end : End) → EndsAloneIn g input n out end → (slots : List Slot) → enough_for b n ≤ zeros slots →
        EndsSo (layout_of_image i) (machine_at_main i input) slots out end }
    ensures no_other_end { (g : Given) (i : ImageView) (b : Bounds) (book : Book) → IsLinkedFrom g i b book → IsImage i → Sound i →
        (input : List ℕ) (n : ℕ) (out : List ℕ) (end : End) → EndsAloneIn g input n out end → (slots : List Slot) (other : End) →
        (turns running (layout_of_image i) slots (machine_at_main i input)).end ≡ Some other → EndsSo (layout_of_image i) (machine_at_main i input) slots out end }
    ensures never_waits { (g : Given) (i : ImageView) (b : Bounds) (book : Book) → IsLinkedFrom g i b book → IsImage i → Sound i →
        (input : List ℕ) (n : ℕ) (out : List ℕ) (end : End) → EndsAloneIn g input n out end → (slots : List Slot) (answer : Clash → Choice) (t : ℕ) →
        is_waiting (turn running (layout_of_image i) answer t (turns running (layout_of_image i) slots (machine_at_main i input))).kind ≡ false }
{}

/// So it is of the record of a run under a picker and a policy that have names. Under `round:K` and `clash` a bound of that many
/// turns is enough; under a schedule, that many picks of thread 0. A run that does not end with StepsOut has the end and output
/// of the source, and none waits or rolls back.
pub fn runs_of_images_that_stay_alone()
    ensures units { (g : Given) (i : ImageView) (b : Bounds) (book : Book) → IsLinkedFrom g i b book → IsImage i → Sound i → b.most ≤ 63 →
        (input : List ℕ) (n : ℕ) (out : List ℕ) (end : End) → EndsAloneIn g input n out end →
        (picker : PickerName) (policy : PolicyName) (bound : ℕ) (ran : Ran Here) → IsNamedRun i picker policy bound input ran →
        picks_started picker ≡ true → 66 * n + 64 ≤ bound → RanSo ran out end }
    ensures bounded { (g : Given) (i : ImageView) (b : Bounds) (book : Book) → IsLinkedFrom g i b book → IsImage i → Sound i →
        (input : List ℕ) (n : ℕ) (out : List ℕ) (end : End) → EndsAloneIn g input n out end →
        (picker : PickerName) (policy : PolicyName) (bound : ℕ) (ran : Ran Here) → IsNamedRun i picker policy bound input ran →
        picks_started picker ≡ true → enough_for b n ≤ bound → RanSo ran out end }
    ensures picked { (g : Given) (i : ImageView) (b : Bounds) (book : Book) → IsLinkedFrom g i b book → IsImage i → Sound i →
        (input : List ℕ) (n : ℕ) (out : List ℕ) (end : End) → EndsAloneIn g input n out end →
        (picker : PickerName) (policy : PolicyName) (bound : ℕ) (ran : Ran Here) → IsNamedRun i picker policy bound input ran →
        enough_for b n ≤ zeros_in ran.picked.items → RanSo ran out end }
    ensures ended { (g : Given) (i : ImageView) (b : Bounds) (book : Book) → IsLinkedFrom g i b book → IsImage i → Sound i →
        (input : List ℕ) (n : ℕ) (out : List ℕ) (end : End) → EndsAloneIn g input n out end →
        (picker : PickerName) (policy : PolicyName) (bound : ℕ) (ran : Ran Here) → IsNamedRun i picker policy bound input ran →
        (ran.end ≡ StepsOut → ⊥) → RanSo ran out end }
    ensures never_waits { (g : Given) (i : ImageView) (b : Bounds) (book : Book) → IsLinkedFrom g i b book → IsImage i → Sound i →
        (input : List ℕ) (n : ℕ) (out : List ℕ) (end : End) → EndsAloneIn g input n out end →
        (picker : PickerName) (policy : PolicyName) (bound : ℕ) (ran : Ran Here) → IsNamedRun i picker policy bound input ran →
        (ran.waited ≡ 0) × (ran.rolled ≡ 0) }
{}

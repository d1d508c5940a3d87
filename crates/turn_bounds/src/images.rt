//! Turns of images that are checked against a program. A function here does nothing: its clauses are the laws.

ghost use Rattle.std.specs.Prelude.{◌≡◌, ◌≤◌, ◌+◌, ◌*◌, ℕ, false, List, Some};
ghost use Rattle.body_check.specs.Notes.{Bounds};
ghost use Rattle.body_check.specs.Calls.{Book};
ghost use Rattle.choosers.specs.declared.Clash.{Clash};
ghost use Rattle.choosers.specs.declared.Choice.{Choice};
ghost use Rattle.tx_code.specs.Images.{ImageView};
ghost use Rattle.tx_events.specs.declared.TheConstants.{THREAD_LIMIT};
ghost use Rattle.tx_events.specs.declared.End.{End};
ghost use Rattle.tx_events.specs.Memory.{MemoryLayout};
ghost use Rattle.tx_events.specs.World.{first_world};
ghost use Rattle.tx_serial.specs.Bound.{is_waiting, zeros};
ghost use Rattle.tx_serial.specs.Turn.{Slot, turns, turn, first_machine};
ghost use Rattle.vm_thread.specs.Threads.{running, at_main};
ghost use Rattle.turn_bounds.specs.Alone.{EndsAlone};
ghost use Rattle.turn_bounds.specs.Checked.{IsChecked, enough_for, EndsSo};
ghost use Rattle.src_mean.specs.Linked.{Program};
ghost use Rattle.src_mean.specs.Source.{source, main_state};

/// A program that spawns nothing and whose source ends at cost n: a machine that runs an image checked against it has come to
/// that end with that output once thread 0 has had `66 * n + 64` turns, where the notes of its bodies allow at most 63 steps
/// more; with other notes, once it has had `enough_for b n` of them. Whatever the turns, no other end comes, and no turn is
/// Waited, Rolled, BlockWait or JoinWait, whatever the policy answers.
pub fn turns_of_checked_images()
    ensures units { (p : Program) (i : ImageView) (b : Bounds) (book : Book) → IsChecked p i b book → b.most ≤ 63 →
        (layout : MemoryLayout) → layout.limit ≤ THREAD_LIMIT → (memory : ℕ → ℕ) (input : List ℕ) (n : ℕ) (out : List ℕ) (end : End) →
        EndsAlone (source p) layout (first_world memory input (main_state p)) n out end → (slots : List Slot) → 66 * n + 64 ≤ zeros slots →
        EndsSo layout (first_machine memory input (at_main i)) slots out end }
    ensures ends { (p : Program) (i : ImageView) (b : Bounds) (book : Book) → IsChecked p i b book →
        (layout : MemoryLayout) → layout.limit ≤ THREAD_LIMIT → (memory : ℕ → ℕ) (input : List ℕ) (n : ℕ) (out : List ℕ) (end : End) →
        EndsAlone (source p) layout (first_world memory input (main_state p)) n out end → (slots : List Slot) → enough_for b n ≤ zeros slots →
        EndsSo layout (first_machine memory input (at_main i)) slots out end }
    ensures no_other_end { (p : Program) (i : ImageView) (b : Bounds) (book : Book) → IsChecked p i b book →
        (layout : MemoryLayout) → layout.limit ≤ THREAD_LIMIT → (memory : ℕ → ℕ) (input : List ℕ) (n : ℕ) (out : List ℕ) (end : End) →
        EndsAlone (source p) layout (first_world memory input (main_state p)) n out end → (slots : List Slot) (other : End) →
        (turns running layout slots (first_machine memory input (at_main i))).end ≡ Some other → EndsSo layout (first_machine memory input (at_main i)) slots out end }
    ensures never_waits { (p : Program) (i : ImageView) (b : Bounds) (book : Book) → IsChecked p i b book →
        (layout : MemoryLayout) → layout.limit ≤ THREAD_LIMIT → (memory : ℕ → ℕ) (input : List ℕ) (n : ℕ) (out : List ℕ) (end : End) →
        EndsAlone (source p) layout (first_world memory input (main_state p)) n out end → (slots : List Slot) (answer : Clash → Choice) (t : ℕ) →
        is_waiting (turn running layout answer t (turns running layout slots (first_machine memory input (at_main i)))).kind ≡ false }
{}

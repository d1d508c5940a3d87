//! Whole runs: what they come to, and that the recorded picks give them again.
ghost use Rattle.tx_events.specs.declared.TheConstants.{THREAD_LIMIT};
ghost use Rattle.std.specs.Prelude.{◌≡◌, ℕ, ◌<◌, ◌≤◌, true, length, is_some, List, [], Option, None};
ghost use Rattle.tx_events.specs.declared.End.TheVariants.{StepsOut};
ghost use Rattle.choosers.specs.declared.Clash.{Clash};
ghost use Rattle.choosers.specs.declared.Choice.{Choice};
ghost use Rattle.choosers.specs.declared.Seen.{Seen};
ghost use Rattle.choosers.specs.Picks.{PickerName, pick};
ghost use Rattle.tx_events.specs.Memory.{MemoryLayout};
ghost use Rattle.tx_events.specs.World.{first_world};
ghost use Rattle.tx_serial.specs.Machine.{Machine};
ghost use Rattle.tx_serial.specs.Turn.{Slot, turns, first_machine};
ghost use Rattle.tx_serial.specs.Run.{PickedBy, AnsweredBy, is_answer, Outcome, RunOf, not_begun, turns_within, sum_of, is_trapped, Together};
ghost use Rattle.tx_serial.specs.Laws.{Replayed};

use tx_events::Actor;

/// Each picker that has a pick for each turn below the bound has a run under each policy whose answer is a function of the
/// clash; and only one, where what it picks is a function of what it is shown and of the thread of the last turn.
pub fn one_run<A: Actor>()
    ensures exists { (p : MemoryLayout) (bound : ℕ) (first : Machine A.State) (pick : Seen → Option ℕ → Option ℕ) (answer : Clash → Choice) →
        ((seen : Seen) (before : Option ℕ) → seen.turn < bound → is_some (pick seen before) ≡ true) →
        (slots : List Slot) × (result : Outcome A.State) ×
        RunOf A.thread p bound first slots result × AnsweredBy (is_answer answer) A.thread p slots (not_begun first)
        × PickedBy pick A.thread p slots (not_begun first) }
    ensures unique { (p : MemoryLayout) (bound : ℕ) (first : Machine A.State) (pick : Seen → Option ℕ → Option ℕ) (answer : Clash → Choice) (slots others : List Slot)
        (result another : Outcome A.State) →
        RunOf A.thread p bound first slots result → AnsweredBy (is_answer answer) A.thread p slots (not_begun first)
        → PickedBy pick A.thread p slots (not_begun first) →
        RunOf A.thread p bound first others another → AnsweredBy (is_answer answer) A.thread p others (not_begun first)
        → PickedBy pick A.thread p others (not_begun first) →
        another ≡ result }
{}

/// Each picker that has a name has a run: `round:K` and `clash` up to the bound, and one that has only a list of picks up
/// to the smaller of the bound and the length of its list.
pub fn named_pickers_run<A: Actor>()
    ensures { (p : MemoryLayout) (bound : ℕ) (first : Machine A.State) (name : PickerName) (answer : Clash → Choice) →
        (slots : List Slot) × (result : Outcome A.State) ×
        RunOf A.thread p (turns_within bound name) first slots result × AnsweredBy (is_answer answer) A.thread p slots (not_begun first)
        × PickedBy (λ seen before. pick name seen.turn seen before) A.thread p slots (not_begun first) }
{}

/// Each turn is counted once.
pub fn turns_counted<A: Actor>()
    ensures { (p : MemoryLayout) (bound : ℕ) (first : Machine A.State) (slots : List Slot) (result : Outcome A.State) →
        RunOf A.thread p bound first slots result → sum_of result.counts ≡ length result.picked }
{}

/// The order of a run replays in the indivisible world, with the same output, input left and end; where the end is
/// StepsOut, the world has none.
pub fn run_replays<A: Actor>()
    ensures { (p : MemoryLayout) (bound : ℕ) (memory : ℕ → ℕ) (input : List ℕ) (main : A.State) (slots : List Slot) (result : Outcome A.State) →
        p.limit ≤ THREAD_LIMIT → A.is_reached main → A.thread.blocks main ≡ [] →
        RunOf A.thread p bound (first_machine memory input main) slots result →
        Replayed A.thread p (first_world memory input main) result }
{}

/// Equal replay: from one machine, with one bound and one policy whose answer is a function of the clash, a run whose
/// picks are those recorded of another, as far as either goes, picks no fewer and no more, and comes to the same.
pub fn equal_replay<A: Actor>()
    ensures { (p : MemoryLayout) (bound : ℕ) (first : Machine A.State) (answer : Clash → Choice) (slots others : List Slot) (result again : Outcome A.State) →
        RunOf A.thread p bound first slots result → AnsweredBy (is_answer answer) A.thread p slots (not_begun first) →
        RunOf A.thread p bound first others again → AnsweredBy (is_answer answer) A.thread p others (not_begun first) →
        Together result.picked again.picked → again ≡ result }
{}

/// A run ends with StepsOut only where it has taken as many turns as its bound and no end has come: no thread ends the
/// program so.
pub fn steps_out_at_the_bound<A: Actor>()
    ensures { (p : MemoryLayout) (bound : ℕ) (memory : ℕ → ℕ) (input : List ℕ) (main : A.State) (slots : List Slot) (result : Outcome A.State) →
        p.limit ≤ THREAD_LIMIT → A.is_reached main → A.thread.blocks main ≡ [] →
        RunOf A.thread p bound (first_machine memory input main) slots result → result.end ≡ StepsOut →
        (length result.picked ≡ bound) × ((turns A.thread p slots (first_machine memory input main)).end ≡ None) }
{}

/// A run has a place exactly where it ended by a trap.
pub fn trapped_at_a_place<A: Actor>()
    ensures { (p : MemoryLayout) (bound : ℕ) (memory : ℕ → ℕ) (input : List ℕ) (main : A.State) (slots : List Slot) (result : Outcome A.State) →
        RunOf A.thread p bound (first_machine memory input main) slots result → is_some result.place ≡ is_trapped result.end }
{}

//! Turn bounds. A function here does nothing: its clauses are the laws.

ghost use Rattle.std.specs.Prelude.{◌≡◌, ◌≤◌, ◌+◌, ◌*◌, ℕ, false, List, [], Some};
ghost use Rattle.choosers.specs.declared.Clash.{Clash};
ghost use Rattle.choosers.specs.declared.Choice.{Choice};
ghost use Rattle.tx_events.specs.declared.TheConstants.{THREAD_LIMIT};
ghost use Rattle.tx_events.specs.declared.End.{End};
ghost use Rattle.tx_events.specs.Memory.{MemoryLayout};
ghost use Rattle.tx_events.specs.Same.{SameEvents, StepsWithin};
ghost use Rattle.tx_events.specs.World.{World, Replays, first_world};
ghost use Rattle.tx_serial.specs.Bound.{is_waiting, zeros};
ghost use Rattle.tx_serial.specs.Turn.{Slot, turns, turn, first_machine};
ghost use Rattle.src_mean.specs.Cost.{cost};
ghost use Rattle.turn_bounds.specs.Alone.{SpawnsNothing, EndsAlone, IsOnTheWay, enough};

use tx_events::Actor;

/// Two threads with the same events, where up to each event the second takes at most `many * c + more` steps for cost `c` of
/// the first. Where the first spawns nothing and ends at cost n, a machine that runs the second has come to that end with
/// that output once thread 0 has had so many turns; no other end comes before; and no turn is Waited, Rolled, BlockWait or
/// JoinWait, whatever the policy answers.
pub fn turns_of_threads_with_the_same_events<A: Actor, B: Actor>()
    ensures ends { (main : A.State) (code : B.State) (many more : ℕ) → B.is_reached code → B.thread.blocks code ≡ [] →
        SameEvents A.thread B.thread main code → 1 ≤ many → StepsWithin A.thread B.thread many more main code →
        (p : MemoryLayout) → p.limit ≤ THREAD_LIMIT → (memory : ℕ → ℕ) (input : List ℕ) (n : ℕ) (out : List ℕ) (end : End) →
        EndsAlone A.thread p (first_world memory input main) n out end → (slots : List Slot) → enough many more n ≤ zeros slots →
        ((turns B.thread p slots (first_machine memory input code)).end ≡ Some end) × ((turns B.thread p slots (first_machine memory input code)).out ≡ out) }
    ensures no_other_end { (main : A.State) (code : B.State) (many more : ℕ) → B.is_reached code → B.thread.blocks code ≡ [] →
        SameEvents A.thread B.thread main code → 1 ≤ many → StepsWithin A.thread B.thread many more main code →
        (p : MemoryLayout) → p.limit ≤ THREAD_LIMIT → (memory : ℕ → ℕ) (input : List ℕ) (n : ℕ) (out : List ℕ) (end : End) →
        EndsAlone A.thread p (first_world memory input main) n out end → (slots : List Slot) (other : End) →
        (turns B.thread p slots (first_machine memory input code)).end ≡ Some other →
        (other ≡ end) × ((turns B.thread p slots (first_machine memory input code)).out ≡ out) }
    ensures never_waits { (main : A.State) (code : B.State) (many more : ℕ) → B.is_reached code → B.thread.blocks code ≡ [] →
        SameEvents A.thread B.thread main code → 1 ≤ many → StepsWithin A.thread B.thread many more main code →
        (p : MemoryLayout) → p.limit ≤ THREAD_LIMIT → (memory : ℕ → ℕ) (input : List ℕ) (n : ℕ) (out : List ℕ) (end : End) →
        EndsAlone A.thread p (first_world memory input main) n out end → (slots : List Slot) (answer : Clash → Choice) (t : ℕ) →
        is_waiting (turn B.thread p answer t (turns B.thread p slots (first_machine memory input code))).kind ≡ false }
{}

/// Where at least two threads may be started, a replay at whose end no thread but the first was started spawns nothing.
pub fn replays_that_start_no_thread<A: Actor>()
    ensures { (p : MemoryLayout) → 2 ≤ p.limit → (memory : ℕ → ℕ) (input : List ℕ) (main : A.State) (order : List ℕ) (v : World A.State) →
        (h : Replays A.thread p (first_world memory input main) order v) → v.started ≡ 1 →
        SpawnsNothing A.thread p (first_world memory input main) order v h }
{}

/// A program that spawns nothing and ends at cost n: each replay of it is on the way there. So it has come to that end with that
/// output where it has ended, and else thread 0 alone goes on, and what is left costs no more than the rest of n.
pub fn replays_are_on_the_way<A: Actor>()
    ensures { (p : MemoryLayout) (memory : ℕ → ℕ) (input : List ℕ) (main : A.State) (n : ℕ) (out : List ℕ) (end : End) →
        EndsAlone A.thread p (first_world memory input main) n out end → (order : List ℕ) (v : World A.State) →
        (h : Replays A.thread p (first_world memory input main) order v) →
        IsOnTheWay A.thread p v (cost A.thread p (first_world memory input main) order v h) n out end }
{}

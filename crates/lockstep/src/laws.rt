//! What moves show. A function here does nothing: its clauses are the laws.

ghost use Rattle.std.specs.Prelude.{◌≡◌, ℕ, Bool, true, ◌≤◌, ◌+◌};
ghost use Rattle.tx_events.specs.Same.{SameEvents, StepsWithin};
ghost use Rattle.lockstep.specs.Moves.{Move, Kept};

use tx_events::Actor;

/// Where a test of pairs of states stays true by moves, the threads have the same events from each pair under it, and
/// the second takes up to each event at most `most + 1` steps for each step of the first, and `most` more.
pub fn moves<A: Actor, B: Actor>()
    ensures same { (most longest : ℕ) (related : ℕ → A.State → B.State → Bool) →
        ((rank : ℕ) (s : A.State) (t : B.State) → rank ≤ most → related rank s t ≡ true → Move A.thread B.thread most longest (Kept related) rank s t) →
        (rank : ℕ) (s : A.State) (t : B.State) → rank ≤ most → related rank s t ≡ true → SameEvents A.thread B.thread s t }
    ensures within { (most longest : ℕ) (related : ℕ → A.State → B.State → Bool) →
        ((rank : ℕ) (s : A.State) (t : B.State) → rank ≤ most → related rank s t ≡ true → Move A.thread B.thread most longest (Kept related) rank s t) →
        (rank : ℕ) (s : A.State) (t : B.State) → rank ≤ most → related rank s t ≡ true → StepsWithin A.thread B.thread (most + 1) most s t }
{}

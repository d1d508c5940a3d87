//! How many turns a program needs that spawns nothing.
ghost use Rattle.tx_events.specs.declared.TheConstants.{THREAD_LIMIT};
ghost use Rattle.std.specs.Prelude.{◌≡◌, ℕ, ◌+◌, ◌*◌, ◌≤◌, false, List, [], Some};
ghost use Rattle.choosers.specs.declared.Clash.{Clash};
ghost use Rattle.choosers.specs.declared.Choice.{Choice};
ghost use Rattle.tx_events.specs.declared.End.{End};
ghost use Rattle.tx_events.specs.Memory.{MemoryLayout};
ghost use Rattle.tx_events.specs.World.{World, Replays, first_world};
ghost use Rattle.tx_serial.specs.Turn.{Slot, turn, turns, first_machine};
ghost use Rattle.tx_serial.specs.Bound.{Tally, no_tally, tallied, AtMost, zeros, is_waiting};

use tx_events::Actor;

/// A run of the indivisible world that comes to an end, spawns nothing, and executes at most so many instructions and so
/// many accesses: the machine has come to that end with that output once thread 0 has had one turn for each instruction
/// and two for each access, since each access is released at most once and each note is put back at most once. So
/// `64 * n + 64` instructions with `n` accesses need `66 * n + 64` turns. No turn on the way is Waited, Rolled, BlockWait
/// or JoinWait, whatever the policy would answer.
pub fn turn_bound<A: Actor>()
    ensures ends { (p : MemoryLayout) (memory : ℕ → ℕ) (input : List ℕ) (main : A.State) (instructions accesses : ℕ) (order : List ℕ) (v : World (A.State × Tally))
        (e : End) (slots : List Slot) →
        p.limit ≤ THREAD_LIMIT → A.is_reached main → A.thread.blocks main ≡ [] →
        (run : Replays (tallied A.thread) p (first_world memory input (main, no_tally)) order v) →
        AtMost A.thread p instructions accesses (first_world memory input (main, no_tally)) order v run → v.end ≡ Some e →
        instructions + 2 * accesses ≤ zeros slots →
        ((turns A.thread p slots (first_machine memory input main)).end ≡ Some e) × ((turns A.thread p slots (first_machine memory input main)).out ≡ v.out) }
    ensures units { (p : MemoryLayout) (memory : ℕ → ℕ) (input : List ℕ) (main : A.State) (n : ℕ) (order : List ℕ) (v : World (A.State × Tally)) (e : End)
        (slots : List Slot) →
        p.limit ≤ THREAD_LIMIT → A.is_reached main → A.thread.blocks main ≡ [] →
        (run : Replays (tallied A.thread) p (first_world memory input (main, no_tally)) order v) →
        AtMost A.thread p (64 * n + 64) n (first_world memory input (main, no_tally)) order v run → v.end ≡ Some e →
        66 * n + 64 ≤ zeros slots →
        ((turns A.thread p slots (first_machine memory input main)).end ≡ Some e) × ((turns A.thread p slots (first_machine memory input main)).out ≡ v.out) }
    ensures never_waits { (p : MemoryLayout) (memory : ℕ → ℕ) (input : List ℕ) (main : A.State) (instructions accesses : ℕ) (order : List ℕ) (v : World (A.State × Tally))
        (e : End) (slots : List Slot) →
        p.limit ≤ THREAD_LIMIT → A.is_reached main → A.thread.blocks main ≡ [] →
        (run : Replays (tallied A.thread) p (first_world memory input (main, no_tally)) order v) →
        AtMost A.thread p instructions accesses (first_world memory input (main, no_tally)) order v run → v.end ≡ Some e →
        (answer : Clash → Choice) (t : ℕ) → is_waiting (turn A.thread p answer t (turns A.thread p slots (first_machine memory input main))).kind ≡ false }
{}

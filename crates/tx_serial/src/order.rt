//! The order of every list of turns replays in the indivisible world.
ghost use Rattle.tx_events.specs.declared.TheConstants.{THREAD_LIMIT};
ghost use Rattle.std.specs.Prelude.{◌≡◌, ℕ, ◌≤◌, List, [], None, true};
ghost use Rattle.choosers.specs.declared.Clash.{Clash};
ghost use Rattle.choosers.specs.declared.Choice.{Choice};
ghost use Rattle.tx_serial.specs.Machine.{Machine, Local, tx_in, birth_of};
ghost use Rattle.tx_serial.specs.Kinds.{GoesOn};
ghost use Rattle.tx_serial.specs.Order.{adds, order_after};
ghost use Rattle.tx_events.specs.Memory.{MemoryLayout};
ghost use Rattle.tx_events.specs.World.{first_world};
ghost use Rattle.tx_serial.specs.Turn.{Slot, turn, turns, first_machine};
ghost use Rattle.tx_serial.specs.Sound.{Sound};
ghost use Rattle.tx_serial.specs.Shows.{ShownByReplay};
ghost use Rattle.tx_serial.specs.Laws.{HeldApart, LockAlone, Rests};

use tx_events::Actor;

/// Whatever turns come, and whatever the policy answers in each, the order is enabled step by step in the indivisible
/// world, and leads to a world that the machine stands for: output, input left and end are equal; and, where no end has
/// come, the lock, the started and ended threads, memory with every open or giving-up transaction put back to its
/// outermost savepoint, and each thread, as `Stands` says part by part.
pub fn order_replays<A: Actor>()
    ensures { (p : MemoryLayout) (memory : ℕ → ℕ) (input : List ℕ) (main : A.State) (slots : List Slot) →
        p.limit ≤ THREAD_LIMIT → A.is_reached main → A.thread.blocks main ≡ [] →
        ShownByReplay A.thread p (first_world memory input main) (turns A.thread p slots (first_machine memory input main)) }
{}

/// Each machine that turns lead to is sound: births are distinct and below the next birth, and the open blocks of each
/// thread are those of its savepoints. While no end has come, no word that is held for writing has a second holder, and
/// no open or giving-up transaction stands beside another thread's lock. A thread whose next event is no access has no waits:
/// so BlockWait and JoinWait, which leave the waits, stand between no two of the turns that they count.
pub fn stays_sound<A: Actor>()
    ensures sound { (p : MemoryLayout) (memory : ℕ → ℕ) (input : List ℕ) (main : A.State) (slots : List Slot) →
        p.limit ≤ THREAD_LIMIT → A.is_reached main → A.thread.blocks main ≡ [] →
        Sound A.is_reached A.thread p (turns A.thread p slots (first_machine memory input main)) }
    ensures apart { (p : MemoryLayout) (memory : ℕ → ℕ) (input : List ℕ) (main : A.State) (slots : List Slot) →
        (turns A.thread p slots (first_machine memory input main)).end ≡ None →
        HeldApart (turns A.thread p slots (first_machine memory input main)) }
    ensures alone { (p : MemoryLayout) (memory : ℕ → ℕ) (input : List ℕ) (main : A.State) (slots : List Slot) →
        (turns A.thread p slots (first_machine memory input main)).end ≡ None →
        LockAlone (turns A.thread p slots (first_machine memory input main)) }
    ensures rests { (p : MemoryLayout) (memory : ℕ → ℕ) (input : List ℕ) (main : A.State) (slots : List Slot) →
        p.limit ≤ THREAD_LIMIT → A.is_reached main → A.thread.blocks main ≡ [] →
        Rests A.thread (turns A.thread p slots (first_machine memory input main)) }
{}

/// A transaction keeps its birth as long as it is there, also where it gives up and is tried again.
pub fn birth_kept<A: Actor>()
    ensures { (p : MemoryLayout) (answer : Clash → Choice) (t u : ℕ) (m : Machine A.State) →
        tx_in (m.threads u) ≡ true → tx_in ((turn A.thread p answer t m).machine.threads u) ≡ true →
        birth_of ((turn A.thread p answer t m).machine.threads u) ≡ birth_of (m.threads u) }
{}

/// The order gains the thread exactly at these turns: outside a transaction each Ran turn whose event is neither Silent nor
/// an outermost BeginAtomic; the turn that ends an outermost atomic block; and a turn in a transaction that ends the program.
pub fn order_grows<A: Actor>()
    ensures { (p : MemoryLayout) (answer : Clash → Choice) (t : ℕ) (m : Machine A.State) (l : Local A.State) →
        GoesOn t m l →
        (turn A.thread p answer t m).machine.order ≡ order_after (adds A.thread t l l.tx (turn A.thread p answer t m)) t m.order }
{}

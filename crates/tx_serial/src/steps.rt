//! What one turn executes, and what it leaves as it is.
ghost use Rattle.std.specs.Prelude.{◌≡◌, ◌==◌, ◌<◌, ◌≤◌, ℕ, min, true, false, List, [], Some, None};
ghost use Rattle.choosers.specs.declared.Clash.{Clash};
ghost use Rattle.choosers.specs.declared.Choice.{Choice};
ghost use Rattle.tx_events.specs.declared.TurnKind.TheVariants.{Ran};
ghost use Rattle.tx_events.specs.declared.End.{End};
ghost use Rattle.tx_events.specs.declared.TheConstants.{THREAD_LIMIT};
ghost use Rattle.tx_events.specs.Memory.{MemoryLayout};
ghost use Rattle.tx_serial.specs.Kinds.{GoesOn};
ghost use Rattle.tx_serial.specs.Machine.{Machine, Local, birth_of, waits_at, most_waits};
ghost use Rattle.tx_serial.specs.Steps.{Executes, draws, births_after, waits_after};
ghost use Rattle.tx_serial.specs.Past.{past_after, waits_in_a_row};
ghost use Rattle.tx_serial.specs.Turn.{Slot, turn, turns, first_machine};

use tx_events::Actor;

/// A Ran turn executes one step of its thread, with the reply of the machine before, or ends the program.
pub fn ran_executes<A: Actor>()
    ensures { (p : MemoryLayout) (answer : Clash → Choice) (t : ℕ) (m : Machine A.State) (l : Local A.State) →
        GoesOn t m l → (turn A.thread p answer t m).kind ≡ Ran → (turn A.thread p answer t m).machine.end ≡ None →
        Executes A.thread t m l (turn A.thread p answer t m) }
{}

/// A turn changes no other started thread: not its state, nor what it holds, nor its transaction.
pub fn other_threads_stay<A: Actor>()
    ensures { (p : MemoryLayout) (answer : Clash → Choice) (t u : ℕ) (m : Machine A.State) (l : Local A.State) →
        GoesOn t m l → (u == t) ≡ false → u < m.started →
        (turn A.thread p answer t m).machine.threads u ≡ m.threads u }
{}

/// A Ran turn of an outermost BeginAtomic draws the next birth for its transaction and raises the next birth by one. No
/// other turn changes the next birth.
pub fn births_drawn<A: Actor>()
    ensures next { (p : MemoryLayout) (answer : Clash → Choice) (t : ℕ) (m : Machine A.State) (l : Local A.State) →
        GoesOn t m l →
        (turn A.thread p answer t m).machine.births ≡ births_after (draws A.thread l l.tx (turn A.thread p answer t m).kind) m.births }
    ensures own { (p : MemoryLayout) (answer : Clash → Choice) (t : ℕ) (m : Machine A.State) (l : Local A.State) →
        GoesOn t m l → draws A.thread l l.tx (turn A.thread p answer t m).kind ≡ true →
        birth_of ((turn A.thread p answer t m).machine.threads t) ≡ m.births }
{}

/// After each turn that does not end the program, the waits of its thread are these: one more than there were at that word
/// against that least birth after a Waited turn, or one where there were none such; the same after BlockWait, JoinWait and
/// Idle; and none after each other turn. The waits of other threads stay. So they count exactly the Waited turns at that word
/// and least birth since the thread's last turn that executed, rolled back, undid or released.
pub fn waits_counted<A: Actor>()
    ensures own { (p : MemoryLayout) (answer : Clash → Choice) (t : ℕ) (m : Machine A.State) (l : Local A.State) →
        GoesOn t m l → (turn A.thread p answer t m).machine.end ≡ None →
        (turn A.thread p answer t m).machine.waits t ≡ waits_after m t (turn A.thread p answer t m).kind }
    ensures others { (p : MemoryLayout) (answer : Clash → Choice) (t u : ℕ) (m : Machine A.State) (l : Local A.State) →
        GoesOn t m l → (u == t) ≡ false → (turn A.thread p answer t m).machine.waits u ≡ m.waits u }
{}

/// The waits of each thread, as one count over all turns from the start: how many Waited turns it has taken last at that word
/// and against that least birth, without another turn of its own between, up to `most_waits`. So this is what a clash shows
/// the policy. Once the program has ended no waits are kept.
pub fn waits_are_in_a_row<A: Actor>()
    ensures { (p : MemoryLayout) (memory : ℕ → ℕ) (input : List ℕ) (main : A.State) (slots : List Slot) (t word least : ℕ) →
        p.limit ≤ THREAD_LIMIT → A.is_reached main → A.thread.blocks main ≡ [] →
        (turns A.thread p slots (first_machine memory input main)).end ≡ None →
        waits_at ((turns A.thread p slots (first_machine memory input main)).waits t) word least
        ≡ min (waits_in_a_row t word least (past_after A.thread p slots (first_machine memory input main) [])) most_waits }
{}

/// The turn that ends the program changes no thread: each stands where it stood before.
pub fn an_end_changes_no_thread<A: Actor>()
    ensures { (p : MemoryLayout) (answer : Clash → Choice) (t : ℕ) (m : Machine A.State) (l : Local A.State) (e : End) →
        GoesOn t m l → (turn A.thread p answer t m).machine.end ≡ Some e →
        (turn A.thread p answer t m).machine.threads ≡ m.threads }
{}

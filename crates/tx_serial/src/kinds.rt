//! Which kinds of turn come, and exactly where.
ghost use Rattle.tx_events.specs.declared.TheConstants.{THREAD_LIMIT};
ghost use Rattle.std.specs.Prelude.{◌≡◌, ℕ, ◌≤◌, false};
ghost use Rattle.choosers.specs.declared.Clash.{Clash};
ghost use Rattle.choosers.specs.declared.Choice.{Choice};
ghost use Rattle.tx_events.specs.Memory.{MemoryLayout};
ghost use Rattle.tx_events.specs.declared.TurnKind.{TurnKind};
ghost use Rattle.tx_events.specs.declared.TurnKind.TheVariants.{Idle};
ghost use Rattle.tx_serial.specs.Machine.{Machine, Local};
ghost use Rattle.tx_serial.specs.Turn.{turn, stays};
ghost use Rattle.tx_serial.specs.Sound.{Sound};
ghost use Rattle.tx_serial.specs.Kinds.{KindBy, GoesOn, Asked, is_ran};

use tx_events::Actor;

/// The turn of a thread that goes on is of a kind whose condition holds. So it is never Idle; in an open transaction it
/// is never BlockWait or JoinWait; while the transaction gives up it is Undone, and while it closes it is Released.
pub fn kind_comes<A: Actor>()
    ensures { (p : MemoryLayout) (answer : Clash → Choice) (t : ℕ) (m : Machine A.State) (l : Local A.State) →
        p.limit ≤ THREAD_LIMIT → Sound A.is_reached A.thread p m → GoesOn t m l →
        KindBy A.thread p answer t m l l.tx (turn A.thread p answer t m).kind }
{}

/// And where the condition of a kind other than Ran holds, the turn is of that kind. With `kind_comes` each such kind comes
/// exactly where its condition holds, and Ran exactly where none does.
pub fn kind_exactly<A: Actor>()
    ensures { (p : MemoryLayout) (answer : Clash → Choice) (t : ℕ) (m : Machine A.State) (l : Local A.State) (kind : TurnKind) →
        GoesOn t m l → KindBy A.thread p answer t m l l.tx kind → is_ran kind ≡ false →
        (turn A.thread p answer t m).kind ≡ kind }
{}

/// The turn of a thread that does not go on, because the program has ended, or it was not started, or has ended, is Idle
/// and changes nothing.
pub fn idle_else<A: Actor>()
    ensures { (p : MemoryLayout) (answer : Clash → Choice) (t : ℕ) (m : Machine A.State) →
        ((l : Local A.State) → GoesOn t m l → ⊥) → turn A.thread p answer t m ≡ stays Idle m }
{}

/// A turn depends on the policy's answer at the clash of which it is asked, and on no other answer.
pub fn one_answer<A: Actor>()
    ensures { (p : MemoryLayout) (answer other : Clash → Choice) (t : ℕ) (m : Machine A.State) →
        ((c : Clash) → Asked A.thread p t m c → answer c ≡ other c) →
        turn A.thread p answer t m ≡ turn A.thread p other t m }
{}

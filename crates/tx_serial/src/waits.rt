//! Under the rule of the policy `older` there is no circle of waits for words.
ghost use Rattle.tx_events.specs.declared.TheConstants.{THREAD_LIMIT};
ghost use Rattle.std.specs.Prelude.{◌≡◌, ℕ, ◌<◌, ◌≤◌, true, List, []};
ghost use Rattle.choosers.specs.declared.Clash.{Clash};
ghost use Rattle.choosers.specs.declared.Choice.{Choice};
ghost use Rattle.choosers.specs.Answers.{answer, is_older, Older};
ghost use Rattle.tx_events.specs.Memory.{MemoryLayout};
ghost use Rattle.tx_events.specs.declared.TurnKind.TheVariants.{Waited, Rolled};
ghost use Rattle.tx_serial.specs.Machine.{Machine, tx_in, birth_of};
ghost use Rattle.tx_serial.specs.Turn.{Slot, turn, first_machine};
ghost use Rattle.tx_serial.specs.Run.{AnsweredBy, EachTurn, not_begun};
ghost use Rattle.tx_serial.specs.Sound.{Sound};
ghost use Rattle.tx_serial.specs.Circle.{AnswersAt, AnswersBy, IsEldest, IsYoungest, Blocks, WaitsOn, OlderTurn};

use tx_events::Actor;

/// Where the policy answers what the rule of the older allows: a Rolled turn has an asker whose birth is greater than that
/// of a blocking transaction, its `holder`; and a Waited turn in a transaction has an asker whose birth is less than that
/// of every blocking transaction.
pub fn older_waits<A: Actor>()
    ensures rolled { (p : MemoryLayout) (answer : Clash → Choice) (m : Machine A.State) (t word holder : ℕ) →
        p.limit ≤ THREAD_LIMIT → Sound A.is_reached A.thread p m → AnswersAt is_older A.thread p t answer m →
        (turn A.thread p answer t m).kind ≡ Rolled word holder →
        Blocks A.thread p m t holder word × (birth_of (m.threads holder) < birth_of (m.threads t)) }
    ensures waited { (p : MemoryLayout) (answer : Clash → Choice) (m : Machine A.State) (t word holder : ℕ) →
        p.limit ≤ THREAD_LIMIT → Sound A.is_reached A.thread p m → AnswersAt is_older A.thread p t answer m →
        tx_in (m.threads t) ≡ true → (turn A.thread p answer t m).kind ≡ Waited word holder →
        (u : ℕ) → Blocks A.thread p m t u word → birth_of (m.threads t) < birth_of (m.threads u) }
{}

/// So of all transactions, those that are open, giving up or closing, the one with the least birth never takes a Rolled
/// turn, the one with the greatest never waits for a word, and no circle of waits for words arises.
pub fn no_circle_of_waits<A: Actor>()
    ensures eldest { (p : MemoryLayout) (answer : Clash → Choice) (m : Machine A.State) (t word holder : ℕ) →
        p.limit ≤ THREAD_LIMIT → Sound A.is_reached A.thread p m → AnswersAt is_older A.thread p t answer m →
        IsEldest t m → (turn A.thread p answer t m).kind ≡ Rolled word holder → ⊥ }
    ensures youngest { (p : MemoryLayout) (answer : Clash → Choice) (m : Machine A.State) (t word holder : ℕ) →
        p.limit ≤ THREAD_LIMIT → Sound A.is_reached A.thread p m → AnswersAt is_older A.thread p t answer m →
        IsYoungest t m → (turn A.thread p answer t m).kind ≡ Waited word holder → ⊥ }
    ensures circle { (p : MemoryLayout) (answer : Clash → Choice) (m : Machine A.State) (t : ℕ) →
        p.limit ≤ THREAD_LIMIT → Sound A.is_reached A.thread p m → AnswersBy is_older A.thread p answer m →
        WaitsOn A.thread p answer m t t → ⊥ }
{}

/// The policy `older` answers what its rule allows, at every machine.
pub fn older_keeps_rule<A: Actor>()
    ensures { (p : MemoryLayout) (m : Machine A.State) → AnswersBy is_older A.thread p (answer Older) m }
{}

/// And so in each turn of a run whose answers are all of that rule.
pub fn older_turns<A: Actor>()
    ensures { (p : MemoryLayout) (memory : ℕ → ℕ) (input : List ℕ) (main : A.State) (slots : List Slot) →
        p.limit ≤ THREAD_LIMIT → A.is_reached main → A.thread.blocks main ≡ [] →
        AnsweredBy (λ clash choice. is_older clash choice ≡ true) A.thread p slots (not_begun (first_machine memory input main)) →
        EachTurn (OlderTurn A.thread p) A.thread p slots (not_begun (first_machine memory input main)) }
{}

//! Accesses to words that other threads hold.
ghost use Rattle.std.specs.Prelude.{◌≡◌, ℕ, ◌<◌, ◌≤◌, ◌+◌, ◌^◌, Bool, true, false, Some, None, length, IfNone, IfSome};
ghost use Rattle.own_table.specs.Bits.{has_bit};
ghost use Rattle.tx_events.specs.declared.TheConstants.{THREAD_LIMIT};
ghost use Rattle.tx_events.specs.Memory.{word_of};
ghost use Rattle.tx_runtime.specs.Blocks.{Sums, BlocksBy};
ghost use Rattle.tx_runtime.specs.View.{machine_in, layout_in};
ghost use Rattle.tx_runtime.specs.declared.access.Blockers.{Blockers};
ghost use Rattle.tx_serial.specs.Machine.{birth_of};
ghost use Rattle.tx_serial.specs.Turn.{waited};

use crate::engine::Engine;
use tx_events::{Actor, TurnKind};

/// The word of an address.
pub(crate) fn word_of(addr: u64) -> u64
    ensures { result ≡ word_of addr }
{
    addr - addr % 8
}

/// The least thread of the set whose number is not below `from`.
fn least_from(threads: u64, from: usize) -> Option<usize>
    requires { from < THREAD_LIMIT }
    ensures none { IfNone result ((v : ℕ) → from ≤ v → has_bit threads v ≡ false) }
    ensures from { IfSome result (λ u. from ≤ u) }
    ensures there { IfSome result (λ u. has_bit threads u ≡ true) }
    ensures least { IfSome result (λ u. (v : ℕ) → from ≤ v → v < u → has_bit threads v ≡ false) }
{
    let rest = threads >> from;
    if rest == 0 {
        return None;
    }
    Some(from + rest.trailing_zeros() as usize)
}

/// The transactions that keep an access off: the thread of the eldest one, the least and the greatest birth, and how many
/// they are.
#[derive(Clone, Copy)]
pub(crate) struct Blockers {
    pub(crate) eldest: u8,
    pub(crate) least: u64,
    pub(crate) greatest: u64,
    pub(crate) count: u8,
}

impl Blockers {
    /// The first one: thread `u`, whose transaction has this birth.
    fn of(u: u8, birth: u64) -> Blockers
        ensures { (p : ℕ → Bool) (f : ℕ → ℕ) → f u ≡ birth → p u ≡ true → Sums p f u None → Sums p f (u + 1) (Some result) }
    {
        Blockers {
            eldest: u,
            least: birth,
            greatest: birth,
            count: 1,
        }
    }

    /// One more of them, whose number is above those of the others.
    fn and(self, u: u8, birth: u64) -> Blockers
        requires few { self.count ≤ u }
        requires number { u < THREAD_LIMIT }
        ensures { (p : ℕ → Bool) (f : ℕ → ℕ) → f u ≡ birth → p u ≡ true → Sums p f u (Some self) → Sums p f (u + 1) (Some result) }
    {
        let is_elder = birth < self.least;
        Blockers {
            eldest: if is_elder { u } else { self.eldest },
            least: if is_elder { birth } else { self.least },
            greatest: self.greatest.max(birth),
            count: self.count + 1,
        }
    }
}

impl<A: Actor> Engine<A, A::Saved> {
    /// The transactions that keep an access of thread `t` to the word off.
    pub(crate) fn blockers(&self, t: u8, word: u64, store: bool) -> Option<Blockers>
        requires { t < length self.now.threads.items }
        ensures { BlocksBy t store word (machine_in A.state A.saved_state self.now) result }
    {
        self.sum_up(self.holders.blockers(word, t, store))
    }

    /// The transactions of these threads, as bits of a number. Threads that are not among them cost nothing.
    fn sum_up(&self, threads: u64) -> Option<Blockers>
        ensures { Sums (has_bit threads) (λ v. birth_of ((machine_in A.state A.saved_state self.now).threads v)) (length self.now.threads.items) result }
    {
        let mut found = None;
        let mut from: usize = 0;
        'threads: while from < self.threads.len() {
            let Some(u) = least_from(threads, from) else {
                return found;
            };
            if u >= self.threads.len() {
                return found;
            }
            found = Some(self.and_blocker(found, u as u8));
            from = u + 1;
        }
        found
    }

    /// Thread `u` is one more of them.
    fn and_blocker(&self, found: Option<Blockers>, u: u8) -> Blockers
        requires number { u < length self.now.threads.items }
        requires few { (b : Blockers) → found ≡ Some b → b.count ≤ u }
        ensures { (p : ℕ → Bool) → p u ≡ true → Sums p (λ v. birth_of ((machine_in A.state A.saved_state self.now).threads v)) u found
            → Sums p (λ v. birth_of ((machine_in A.state A.saved_state self.now).threads v)) (u + 1) (Some result) }
    {
        let birth = self.threads[u as usize].birth();
        match found {
            Some(others) => others.and(u, birth),
            None => Blockers::of(u, birth),
        }
    }

    /// The thread waits for the word one turn more.
    pub(crate) fn wait(&mut self, t: u8, word: u64, blockers: Blockers) -> TurnKind
        requires started { t < length self.old.threads.items }
        requires least { blockers.least ≡ birth_of ((machine_in A.state A.saved_state self.old).threads blockers.eldest) }
        ensures done { record { machine = machine_in A.state A.saved_state self.new; kind = result }
            ≡ waited t (machine_in A.state A.saved_state self.old) word blockers.eldest }
        ensures layout { layout_in self.new ≡ layout_in self.old }
    {
        let thread = &mut self.threads[t as usize];
        thread.wait(word, blockers.least);
        TurnKind::Waited {
            word,
            holder: blockers.eldest,
        }
    }
}

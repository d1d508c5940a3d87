//! A clash of transactions: the policy chooses.
ghost use Rattle.std.specs.Prelude.{◌≡◌, ℕ, ◌<◌, Bool, true, Some, IfOk, OnErr};
ghost use Rattle.std.specs.Fn.{FnReturnsAt};
ghost use Rattle.choosers.specs.Answers.{KeepsRule};
ghost use Rattle.tx_events.specs.declared.Event.{Event};
ghost use Rattle.tx_runtime.specs.Blocks.{BlocksBy};
ghost use Rattle.tx_runtime.specs.Here.{GoesInside, Chosen};
ghost use Rattle.tx_runtime.specs.View.{machine_in, layout_in};
ghost use Rattle.tx_serial.specs.Kinds.{Accesses};

use crate::access::Blockers;
use crate::engine::Engine;
use choosers::policy::{Policy, Rule};
use choosers::{Choice, Clash};
use std::alloc::AllocError;
use tx_events::{Actor, TurnKind};

impl<A: Actor> Engine<A, A::Saved> {
    /// An access in a transaction that other transactions keep off: as the policy chooses, the thread waits, or its
    /// transaction gives up.
    pub(crate) fn clash<R: Rule, F: Fn(&Clash) -> Choice>(
        &mut self,
        t: u8,
        word: u64,
        blockers: Blockers,
        policy: &Policy<R, F>,
    ) -> Result<TurnKind, AllocError>
        requires here { (e : Event) × (store : Bool) × GoesInside A.is_reached A.thread t (machine_in A.state A.saved_state self.old) e × Accesses (layout_in self.old) e store word
            × BlocksBy t store word (machine_in A.state A.saved_state self.old) (Some blockers) }
        requires keeps { KeepsRule (F.IsAlwaysCallable policy.now.answer) (FnReturnsAt F.Fn policy.now.answer) R.allows }
        ensures chosen { IfOk result (λ kind. Chosen A.thread (layout_in self.old) (FnReturnsAt F.Fn policy.now.answer) R.allows t
            (machine_in A.state A.saved_state self.old) kind (machine_in A.state A.saved_state self.new)) }
        ensures same { OnErr result (machine_in A.state A.saved_state self.new ≡ machine_in A.state A.saved_state self.old) }
        ensures layout { layout_in self.new ≡ layout_in self.old }
    {
        let thread = &self.threads[t as usize];
        let clash = Clash {
            mine: thread.birth(),
            least: blockers.least,
            greatest: blockers.greatest,
            count: blockers.count,
            waits: thread.waits.at(word, blockers.least),
        };
        match policy.ask(&clash) {
            Choice::Wait => Ok(self.wait(t, word, blockers)),
            Choice::Yield => self.roll(t, word, blockers.eldest),
        }
    }
}

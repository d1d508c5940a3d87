//! All that the threads share, and the steps that rows have in common.
ghost use Rattle.std.specs.Prelude.{◌≡◌};
ghost use Rattle.std.proofs.Props.{props};
ghost use Rattle.tx_memory.specs.View.{layout_of};
ghost use Rattle.tx_runtime.specs.Threads.{IsWhole};

use crate::input::Input;
use crate::lock::SyncLock;
use crate::thread::ThreadSlot;
use own_table::Holders;
use std::alloc::{AllocError, Global};
use tx_events::{Actor, End, Reply, TurnKind};
use tx_memory::Memory;

/// The machine.
#[derive(Drop)]
pub(crate) struct Engine<A, K> {
    pub(crate) alloc: Global,
    pub(crate) memory: Memory,
    pub(crate) holders: Holders,
    pub(crate) threads: Vec<ThreadSlot<A, K>>,
    /// How many threads may be started.
    pub(crate) limit: u8,
    pub(crate) lock: SyncLock,
    /// The birth of the next transaction.
    pub(crate) births: u64,
    pub(crate) input: Input,
    pub(crate) out: Vec<u8>,
    pub(crate) order: Vec<u8>,
    pub(crate) end: Option<End>,
    ghost whole: { IsWhole (layout_of memory) limit holders threads.items } by { Prim.hlevel props },
}

impl<A: Actor> Engine<A, A::Saved> {
    ghost use Rattle.std.specs.Prelude.{ℕ, ◌<◌, OnOk, OnErr, IfOk, length, Some};
    ghost use Rattle.tx_events.specs.Thread.{Answers};
    ghost use Rattle.tx_runtime.specs.View.{machine_in, layout_in};
    ghost use Rattle.tx_runtime.specs.Here.{IsReady, IsReadyToNote};
    ghost use Rattle.tx_serial.specs.Machine.{Local};
    ghost use Rattle.tx_serial.specs.Turn.{halts, steps, order_gains, ran};

    /// Makes room for a step of the thread.
    pub(crate) fn ready(&mut self, t: u8) -> Result<(), AllocError>
        requires { t < length self.old.threads.items }
        ensures capacity { OnOk result (IsReady A.has_capacity t self.new.threads.items) }
        ensures same { machine_in A.state A.saved_state self.new ≡ machine_in A.state A.saved_state self.old }
        ensures layout { layout_in self.new ≡ layout_in self.old }
    {
        let thread = &mut self.threads[t as usize];
        thread.ready()
    }

    /// Makes room for a step of the thread, and for a note of the word or a savepoint.
    pub(crate) fn ready_to_note(&mut self, t: u8, word: u64) -> Result<(), AllocError>
        requires { t < length self.old.threads.items }
        ensures capacity { OnOk result (IsReadyToNote A.has_capacity t self.new.threads.items) }
        ensures same { machine_in A.state A.saved_state self.new ≡ machine_in A.state A.saved_state self.old }
        ensures layout { layout_in self.new ≡ layout_in self.old }
    {
        let thread = &mut self.threads[t as usize];
        thread.ready_to_note(word)
    }

    /// The thread goes on after the next event, which was answered so. Its waits are over.
    pub(crate) fn step(&mut self, t: u8, reply: Reply)
        requires started { t < length self.old.threads.items }
        requires capacity { IsReady A.has_capacity t self.old.threads.items }
        requires answers { (l : Local A.State) → (machine_in A.state A.saved_state self.old).threads t ≡ Some l → Answers (A.thread.next l.state) reply }
        ensures done { (l : Local A.State) → (machine_in A.state A.saved_state self.old).threads t ≡ Some l
            → machine_in A.state A.saved_state self.new ≡ steps t (machine_in A.state A.saved_state self.old) (record l { state = A.thread.after l.state reply }) }
        ensures layout { layout_in self.new ≡ layout_in self.old }
    {
        let thread = &mut self.threads[t as usize];
        thread.go_on(reply);
    }

    /// A turn that does no more than the thread's step.
    pub(crate) fn step_alone(&mut self, t: u8, reply: Reply) -> Result<TurnKind, AllocError>
        requires started { t < length self.old.threads.items }
        requires answers { (l : Local A.State) → (machine_in A.state A.saved_state self.old).threads t ≡ Some l → Answers (A.thread.next l.state) reply }
        ensures done { IfOk result (λ kind. (l : Local A.State) → (machine_in A.state A.saved_state self.old).threads t ≡ Some l
            → record { machine = machine_in A.state A.saved_state self.new; kind = kind } ≡ ran (steps t (machine_in A.state A.saved_state self.old) (record l { state = A.thread.after l.state reply }))) }
        ensures same { OnErr result (machine_in A.state A.saved_state self.new ≡ machine_in A.state A.saved_state self.old) }
        ensures layout { layout_in self.new ≡ layout_in self.old }
    {
        self.ready(t)?;
        self.step(t, reply);
        Ok(TurnKind::Ran)
    }

    /// The thread's step, which the order gains.
    pub(crate) fn step_in_order(&mut self, t: u8, reply: Reply) -> Result<TurnKind, AllocError>
        requires started { t < length self.old.threads.items }
        requires answers { (l : Local A.State) → (machine_in A.state A.saved_state self.old).threads t ≡ Some l → Answers (A.thread.next l.state) reply }
        ensures done { IfOk result (λ kind. (l : Local A.State) → (machine_in A.state A.saved_state self.old).threads t ≡ Some l
            → record { machine = machine_in A.state A.saved_state self.new; kind = kind } ≡ ran (order_gains t (steps t (machine_in A.state A.saved_state self.old) (record l { state = A.thread.after l.state reply })))) }
        ensures same { OnErr result (machine_in A.state A.saved_state self.new ≡ machine_in A.state A.saved_state self.old) }
        ensures layout { layout_in self.new ≡ layout_in self.old }
    {
        self.ready(t)?;
        self.order.reserve(1)?;
        self.order.push_reserved(t);
        self.step(t, reply);
        Ok(TurnKind::Ran)
    }

    /// The program ends so, at a turn of thread `t`.
    pub(crate) fn halt(&mut self, t: u8, end: End) -> Result<TurnKind, AllocError>
        ensures done { IfOk result (λ kind. record { machine = machine_in A.state A.saved_state self.new; kind = kind }
            ≡ halts t (machine_in A.state A.saved_state self.old) end) }
        ensures same { OnErr result (machine_in A.state A.saved_state self.new ≡ machine_in A.state A.saved_state self.old) }
        ensures layout { layout_in self.new ≡ layout_in self.old }
    {
        self.order.reserve(1)?;
        self.order.push_reserved(t);
        self.end = Some(end);
        Ok(TurnKind::Ran)
    }
}

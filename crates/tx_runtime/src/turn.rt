//! One turn: the first row of the turn table that applies.
ghost use Rattle.std.specs.Prelude.{◌≡◌, ℕ, ◌<◌, ◌≤◌, ◌^◌, ◌-◌, Bool, false, Some, None, length, IfOk, OnErr};
ghost use Rattle.std.specs.Fn.{FnReturnsAt};
ghost use Rattle.choosers.specs.Answers.{KeepsRule};
ghost use Rattle.tx_runtime.specs.Here.{GoesOutside, GoesInside, Chosen, Turns};
ghost use Rattle.tx_runtime.specs.Allocation.{MayAllocate};
ghost use Rattle.tx_runtime.specs.Standing.{StandsAt};
ghost use Rattle.tx_runtime.specs.View.{machine_in, layout_in};
ghost use Rattle.tx_serial.specs.Run.{is_access, accesses_in};

use crate::engine::Engine;
use crate::thread::Stage;
use choosers::policy::{Policy, Rule};
use choosers::{Choice, Clash};
use std::alloc::AllocError;
use tx_events::{Actor, Event, TurnKind};

/// Where a thread stands that takes a turn, with its next event where that decides.
pub(crate) enum Standing {
    /// It was not started, or has ended.
    Still,
    /// It has no transaction.
    Outside(Event),
    /// Its transaction is open.
    Inside(Event),
    /// Its transaction gives up.
    Undoing,
    /// Its transaction is closing.
    Releasing,
}

/// Whether the event is a load or a store.
fn is_access(event: Event) -> bool
    ensures { result ≡ is_access event }
{
    match event {
        Event::Load { .. } => true,
        Event::Store { .. } => true,
        _ => false,
    }
}

impl<A: Actor> Engine<A, A::Saved> {
    /// Where the thread stands.
    fn standing(&self, t: u8) -> Standing
        requires { self.now.end ≡ None }
        ensures { StandsAt A.is_reached A.thread t (machine_in A.state A.saved_state self.now) result }
    {
        if t as usize >= self.threads.len() {
            return Standing::Still;
        }
        let thread = &self.threads[t as usize];
        if thread.ended {
            return Standing::Still;
        }
        match thread.stage() {
            None => Standing::Outside(thread.actor.next()),
            Some(Stage::Open) => Standing::Inside(thread.actor.next()),
            Some(Stage::Undoing) => Standing::Undoing,
            Some(Stage::Releasing) => Standing::Releasing,
        }
    }

    /// Whether the thread's next event is a load or store in an open transaction.
    pub(crate) fn accesses_inside(&self, t: u8) -> bool
        ensures { result ≡ accesses_in A.thread ((machine_in A.state A.saved_state self.now).threads t) }
    {
        if t as usize >= self.threads.len() {
            return false;
        }
        let thread = &self.threads[t as usize];
        match thread.stage() {
            Some(Stage::Open) => is_access(thread.actor.next()),
            Some(Stage::Undoing) => false,
            Some(Stage::Releasing) => false,
            None => false,
        }
    }

    /// One turn of the thread. On `AllocError` the machine is as before.
    pub(crate) fn turn<R: Rule, F: Fn(&Clash) -> Choice>(
        &mut self,
        t: u8,
        policy: &Policy<R, F>,
    ) -> Result<TurnKind, AllocError>
        requires going { self.old.end ≡ None }
        requires births { self.old.births < 2 ^ 64 - 1 }
        requires depth { self.old.lock.depth < 2 ^ 64 - 1 }
        requires keeps { KeepsRule (F.IsAlwaysCallable policy.now.answer) (FnReturnsAt F.Fn policy.now.answer) R.allows }
        ensures chosen { IfOk result (λ kind. Chosen A.thread (layout_in self.old) (FnReturnsAt F.Fn policy.now.answer) R.allows t
            (machine_in A.state A.saved_state self.old) kind (machine_in A.state A.saved_state self.new)) }
        ensures same { OnErr result (machine_in A.state A.saved_state self.new ≡ machine_in A.state A.saved_state self.old) }
        ensures capacity { OnErr result (MayAllocate A.thread (layout_in self.old) t (machine_in A.state A.saved_state self.old)) }
        ensures layout { layout_in self.new ≡ layout_in self.old }
    {
        match self.standing(t) {
            Standing::Still => Ok(TurnKind::Idle),
            Standing::Releasing => Ok(self.release(t)),
            Standing::Undoing => self.give_back(t),
            Standing::Outside(event) => self.turn_outside(t, event),
            Standing::Inside(event) => self.turn_inside(t, event, policy),
        }
    }

    /// The rows of a thread that has no transaction.
    fn turn_outside(&mut self, t: u8, event: Event) -> Result<TurnKind, AllocError>
        requires here { GoesOutside A.is_reached A.thread t (machine_in A.state A.saved_state self.old) event }
        requires births { self.old.births < 2 ^ 64 - 1 }
        requires depth { self.old.lock.depth < 2 ^ 64 - 1 }
        ensures turned { IfOk result (λ kind. Turns A.state A.saved_state A.thread t self.old kind self.new) }
        ensures same { OnErr result (machine_in A.state A.saved_state self.new ≡ machine_in A.state A.saved_state self.old) }
        ensures layout { layout_in self.new ≡ layout_in self.old }
    {
        match event {
            Event::Silent => self.silent(t),
            Event::Load {
                addr,
                size,
                volatile: _,
            } => self.load_outside(t, addr, size),
            Event::Store {
                addr,
                size,
                value,
                volatile: _,
            } => self.store_outside(t, addr, size, value),
            Event::BeginAtomic { kind: _ } => self.begin_outermost(t),
            Event::BeginSync => self.begin_sync(t),
            Event::EndSync => self.end_sync(t),
            Event::Spawn { func, arg } => self.spawn(t, func, arg),
            Event::Join { id } => self.join(t, id),
            Event::Out { byte } => self.output(t, byte),
            Event::Inp => self.input(t),
            Event::Done => self.finish(t),
            Event::Stop { end } => self.halt(t, end),
            // No atomic block is open, so none is left.
            Event::EndAtomic | Event::Raise { .. } => Ok(TurnKind::Idle),
        }
    }

    /// The rows of a thread whose transaction is open.
    fn turn_inside<R: Rule, F: Fn(&Clash) -> Choice>(
        &mut self,
        t: u8,
        event: Event,
        policy: &Policy<R, F>,
    ) -> Result<TurnKind, AllocError>
        requires here { GoesInside A.is_reached A.thread t (machine_in A.state A.saved_state self.old) event }
        requires keeps { KeepsRule (F.IsAlwaysCallable policy.now.answer) (FnReturnsAt F.Fn policy.now.answer) R.allows }
        ensures chosen { IfOk result (λ kind. Chosen A.thread (layout_in self.old) (FnReturnsAt F.Fn policy.now.answer) R.allows t
            (machine_in A.state A.saved_state self.old) kind (machine_in A.state A.saved_state self.new)) }
        ensures same { OnErr result (machine_in A.state A.saved_state self.new ≡ machine_in A.state A.saved_state self.old) }
        ensures capacity { OnErr result (MayAllocate A.thread (layout_in self.old) t (machine_in A.state A.saved_state self.old)) }
        ensures layout { layout_in self.new ≡ layout_in self.old }
    {
        match event {
            Event::Load {
                addr,
                size,
                volatile: _,
            } => self.load_inside(t, addr, size, policy),
            Event::Store {
                addr,
                size,
                value,
                volatile: _,
            } => self.store_inside(t, addr, size, value, policy),
            _ => self.turn_alone(t, event),
        }
    }

    /// The rows of an open transaction at which no policy is asked.
    fn turn_alone(&mut self, t: u8, event: Event) -> Result<TurnKind, AllocError>
        requires here { GoesInside A.is_reached A.thread t (machine_in A.state A.saved_state self.old) event }
        requires alone { is_access event ≡ false }
        ensures turned { IfOk result (λ kind. Turns A.state A.saved_state A.thread t self.old kind self.new) }
        ensures same { OnErr result (machine_in A.state A.saved_state self.new ≡ machine_in A.state A.saved_state self.old) }
        ensures capacity { OnErr result (MayAllocate A.thread (layout_in self.old) t (machine_in A.state A.saved_state self.old)) }
        ensures layout { layout_in self.new ≡ layout_in self.old }
    {
        match event {
            Event::Silent => self.pass(t),
            Event::BeginSync => self.pass(t),
            Event::EndSync => self.pass(t),
            Event::BeginAtomic { kind: _ } => self.begin_inner(t),
            Event::EndAtomic => self.end_atomic(t),
            Event::Raise { kind, cancels } => self.raise(t, kind, cancels),
            Event::Stop { end } => self.halt(t, end),
            // No other event comes where an atomic block is open.
            _ => Ok(TurnKind::Idle),
        }
    }
}

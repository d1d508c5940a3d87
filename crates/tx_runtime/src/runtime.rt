//! The runtime as its callers see it.
ghost use Rattle.std.specs.Prelude.{◌≡◌, ◌&&◌, [], length};
ghost use Rattle.tx_serial.specs.Kinds.{is_ran};
ghost use Rattle.undo_log.specs.View.{marks_of};

use crate::engine::Engine;
use crate::input::Input;
use crate::lock::SyncLock;
use crate::thread::ThreadSlot;
use choosers::policy::{Policy, Rule};
use choosers::{Choice, Clash};
use own_table::Holders;
use std::alloc::{AllocError, Global};
use tx_events::{Actor, End, TurnKind};
use tx_memory::Memory;
use undo_log::Log;

/// Modelled threads on one memory, and the transactions that they have.
#[derive(Drop)]
pub struct Runtime<A: Actor> {
    engine: Engine<A, A::Saved>,
    /// For each thread number whether its last turn was a done load or store in a transaction.
    inside: Vec<bool>,
    /// The log of a number without a thread.
    blank: Log,
    ghost blank_log: { marks_of blank ≡ [] },
    ghost flags: { length inside.items ≡ engine.limit },
}

/// Whether the turn was of kind `Ran`, and of an access in a transaction.
fn is_inside(kind: TurnKind, accesses: bool) -> bool
    ensures { result ≡ is_ran kind && accesses }
{
    match kind {
        TurnKind::Ran => accesses,
        _ => false,
    }
}

impl<A: Actor> Runtime<A> {
    ghost use Rattle.std.specs.Prelude.{ℕ, ◌<◌, ◌≤◌, ◌^◌, ◌+◌, ◌-◌, false, None, IfOk, OnErr, option_copied};
    ghost use Rattle.std.specs.Fn.{FnReturnsAt};
    ghost use Rattle.tx_events.specs.declared.TheConstants.{THREAD_LIMIT};
    ghost use Rattle.choosers.specs.Answers.{KeepsRule};
    ghost use Rattle.tx_memory.specs.View.{layout_of, words_of};
    ghost use Rattle.tx_runtime.specs.Here.{Chosen};
    ghost use Rattle.tx_runtime.specs.Allocation.{MayAllocate};
    ghost use Rattle.tx_runtime.specs.Runtime.{machine_of, layout_at, limit_of, inside_of, inside_after, saves_in, ShowsActor, HoldsOf, KeepsOrder};
    ghost use Rattle.tx_runtime.specs.Saves.{saves_of, ShowsLevels};
    ghost use Rattle.tx_serial.specs.Turn.{first_machine};

    /// The machine at the start: `main` is thread 0 and alone was started. As many threads as `threads` may be started.
    pub fn new(
        alloc: Global,
        main: A,
        memory: Memory,
        input: Vec<u8>,
        threads: u8,
    ) -> Result<Runtime<A>, AllocError>
        requires some { 0 < threads }
        requires limit { threads ≤ THREAD_LIMIT }
        requires memory { (layout_of memory).limit ≡ threads }
        ensures first { IfOk result (λ r. machine_of r ≡ first_machine (words_of memory) input.items (A.state main)) }
        ensures layout { IfOk result (λ r. layout_at r ≡ layout_of memory) }
        ensures limit { IfOk result (λ r. limit_of r ≡ threads) }
        ensures inside { IfOk result (λ r. (t : ℕ) → inside_of r t ≡ false) }
    {
        let holders = Holders::new(alloc, threads)?;
        let mut slots = Vec::new(alloc);
        slots.push(ThreadSlot::new(alloc, main))?;
        let inside = Vec::from_elem(alloc, false, threads as usize)?;
        let engine = Engine {
            alloc,
            memory,
            holders,
            threads: slots,
            limit: threads,
            lock: SyncLock {
                holder: None,
                depth: 0,
            },
            births: 0,
            input: Input::new(input),
            out: Vec::new(alloc),
            order: Vec::new(alloc),
            end: None,
        };
        Ok(Runtime {
            engine,
            inside,
            blank: Log::new(alloc),
        })
    }

    /// One turn of the thread, where the policy is asked at a clash. On `AllocError` the machine is as before. A turn of kind
    /// `Undone` or `Released` does not answer it, but the last one of a transaction that gives up, which puts the thread back.
    pub fn turn<R: Rule, F: Fn(&Clash) -> Choice>(
        &mut self,
        t: u8,
        policy: &Policy<R, F>,
    ) -> Result<TurnKind, AllocError>
        requires number { t < limit_of self.old }
        requires going { (machine_of self.old).end ≡ None }
        requires births { (machine_of self.old).births < 2 ^ 64 - 1 }
        requires depth { (machine_of self.old).lock.depth < 2 ^ 64 - 1 }
        requires keeps { KeepsRule (F.IsAlwaysCallable policy.now.answer) (FnReturnsAt F.Fn policy.now.answer) R.allows }
        ensures chosen { IfOk result (λ kind. Chosen A.thread (layout_at self.old) (FnReturnsAt F.Fn policy.now.answer) R.allows t
            (machine_of self.old) kind (machine_of self.new)) }
        ensures keeps_order { IfOk result (λ kind. KeepsOrder A.is_reached A.thread (layout_at self.old)
            (machine_of self.old) (machine_of self.new)) }
        ensures inside { IfOk result (λ kind. (u : ℕ) → inside_of self.new u
            ≡ inside_after A.thread t (machine_of self.old) kind (inside_of self.old) u) }
        ensures same { OnErr result (machine_of self.new ≡ machine_of self.old) }
        ensures kept { OnErr result ((u : ℕ) → inside_of self.new u ≡ inside_of self.old u) }
        ensures capacity { OnErr result (MayAllocate A.thread (layout_at self.old) t (machine_of self.old)) }
        ensures layout { layout_at self.new ≡ layout_at self.old }
        ensures limit { limit_of self.new ≡ limit_of self.old }
        ensures births { (machine_of self.new).births ≤ (machine_of self.old).births + 1 }
        ensures depth { (machine_of self.new).lock.depth ≤ (machine_of self.old).lock.depth + 1 }
    {
        let accesses = self.engine.accesses_inside(t);
        let kind = self.engine.turn(t, policy)?;
        self.inside[t as usize] = is_inside(kind, accesses);
        Ok(kind)
    }

    /// The memory, as the turns so far left it.
    pub fn memory(&self) -> &Memory
        ensures words { words_of result.now ≡ (machine_of self.now).memory }
        ensures layout { layout_of result.now ≡ layout_at self.now }
    {
        &self.engine.memory
    }

    /// How the program has ended, if it has.
    pub fn end(&self) -> Option<End>
        ensures { result ≡ (machine_of self.now).end }
    {
        self.engine.end
    }

    /// The bytes of output so far.
    pub fn out(&self) -> &[u8]
        ensures { result.now ≡ (machine_of self.now).out }
    {
        self.engine.out.as_slice()
    }

    /// The order in which turns and whole blocks took effect, by thread numbers.
    pub fn order(&self) -> &[u8]
        ensures { result.now ≡ (machine_of self.now).order }
    {
        self.engine.order.as_slice()
    }

    /// How many threads were started: at least one, and no more than may be.
    pub fn started(&self) -> u8
        ensures started { result ≡ (machine_of self.now).started }
        ensures some { 0 < result }
        ensures within { result ≤ limit_of self.now }
    {
        self.engine.threads.len() as u8
    }

    /// Whether the thread's last turn was a done load or store in a transaction.
    pub fn inside(&self, t: u8) -> bool
        requires { t < limit_of self.now }
        ensures { result ≡ inside_of self.now t }
    {
        self.inside[t as usize]
    }

    /// The thread, if it was started.
    pub fn actor(&self, t: u8) -> Option<&A>
        ensures { ShowsActor A.state ((machine_of self.now).threads t) (option_copied result) }
    {
        if (t as usize) < self.engine.threads.len() {
            Some(&self.engine.threads[t as usize].actor)
        } else {
            None
        }
    }

    /// Which thread holds which word.
    pub fn holders(&self) -> &Holders
        ensures { HoldsOf (machine_of self.now) (limit_of self.now) result.now }
    {
        &self.engine.holders
    }

    /// The savepoints of the thread: one mark for each. To go back to a mark is to put back its savepoint and all newer ones.
    pub fn log(&self, t: u8) -> &Log
        ensures saves { saves_of result.now ≡ saves_in ((machine_of self.now).threads t) }
        ensures marks { length (marks_of result.now) ≡ length (saves_in ((machine_of self.now).threads t)) }
        ensures levels { ShowsLevels result.now (saves_in ((machine_of self.now).threads t)) }
    {
        if (t as usize) < self.engine.threads.len() {
            &self.engine.threads[t as usize].log
        } else {
            &self.blank
        }
    }
}

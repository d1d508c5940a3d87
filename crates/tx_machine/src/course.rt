//! A run so far.
ghost use Rattle.std.specs.Prelude.{◌≡◌, ◌<◌, ◌^◌, ◌-◌, ℕ};

use crate::counts::Counts;
use crate::observer::Observer;
use choosers::picker::Picker;
use choosers::policy::{Policy, Rule};
use choosers::{Choice, Clash, Seen};
use std::alloc::{AllocError, Global};
use tx_events::{Actor, End, TurnKind};
use tx_runtime::Runtime;

/// The runtime, and what its turns so far came to.
#[derive(Drop)]
pub(crate) struct Course<A: Actor> {
    pub(crate) runtime: Runtime<A>,
    /// The thread of each turn.
    pub(crate) picked: Vec<u8>,
    pub(crate) counts: Counts,
    /// The thread of the last turn, if there was one.
    pub(crate) thread: Option<u8>,
    /// The kind of the last turn, if there was one.
    pub(crate) last: Option<TurnKind>,
    /// Whether the last turn was a done load or store in a transaction.
    pub(crate) inside: bool,
}

impl<A: Actor> Course<A> {
    ghost use Rattle.std.specs.Prelude.{true, None, List, [], length, OnOk, OnErr};
    ghost use Rattle.tx_serial.specs.Turn.{Slot};
    ghost use Rattle.std.specs.Fn.{FnReturnsAt};
    ghost use Rattle.choosers.specs.Answers.{KeepsRule};
    ghost use Rattle.choosers.specs.Picks.{IsSeen};
    ghost use Rattle.tx_events.specs.declared.TheConstants.{THREAD_LIMIT};
    ghost use Rattle.tx_runtime.specs.Runtime.{machine_of, layout_at};
    ghost use Rattle.tx_serial.specs.Run.{Progress, not_begun, no_counts, seen};
    ghost use Rattle.tx_machine.specs.Course.{Shows, IsBounded, OneTurn, Played, Asks, IsOneToLimit, counts_of};
    ghost use Rattle.tx_machine.specs.Finished.{end_or_out};
    ghost use Rattle.std.specs.Borrow.{Bor};
    ghost use Rattle.choosers.specs.declared.Seen.{Seen};

    /// No turn was taken yet.
    pub(crate) fn new(alloc: Global, runtime: Runtime<A>) -> Course<A>
        ensures runtime { result.runtime ≡ runtime }
        ensures shows { Shows result (not_begun (machine_of runtime)) }
        ensures none { length result.picked.items ≡ 0 }
        ensures counts { counts_of result.counts ≡ no_counts }
    {
        Course {
            runtime,
            picked: Vec::new(alloc),
            counts: Counts::none(),
            thread: None,
            last: None,
            inside: false,
        }
    }

    /// The program's end, or else the end of its steps.
    pub(crate) fn end(&self) -> End
        ensures { result ≡ end_or_out (machine_of self.now.runtime).end }
    {
        match self.runtime.end() {
            Some(end) => end,
            None => End::StepsOut,
        }
    }

    /// One turn more, of the thread that the picker picks.
    pub(crate) fn take_turn<
        R: Rule,
        F: Fn(&Clash) -> Choice,
        G: FnMut(&Seen) -> u8,
        W: Observer<A>,
    >(
        &mut self,
        picker: &mut Picker<G>,
        policy: &Policy<R, F>,
        observer: &mut W,
    ) -> Result<(), AllocError>
        ghost read: { A.State → W.Place }
        requires sees { (a : A) → W.place a ≡ read (A.state a) }
        requires going { (machine_of self.old.runtime).end ≡ None }
        requires bounded { IsBounded self.old }
        requires few { length self.old.picked.items < 2 ^ 32 - 1 }
        requires keeps { KeepsRule (F.IsAlwaysCallable policy.now.answer) (FnReturnsAt F.Fn policy.now.answer) R.allows }
        requires callable { (g : G) (s : _) → G.pre g s }
        requires below { (g h : G) (s : _) (t : _) → IsSeen s.now → G.step g s t h → t < picker.old.limit }
        requires limit { picker.old.limit ≡ THREAD_LIMIT }
        ensures turned { OnOk result ((r : Progress A.State) → Shows self.old r → OneTurn (layout_at self.old.runtime)
            (λ c choice. FnReturnsAt F.Fn policy.now.answer c choice × (R.allows c choice ≡ true))
            (λ g s t h. (shown : Bor Seen) × (shown.now ≡ s) × IsOneToLimit s.started × G.step g shown t h)
            (record { place = read; shown = W.after_shown; told = W.after_told }) self.old self.new picker.old.choose picker.new.choose (W.state observer.old)
            (W.state observer.new) r) }
        ensures bounded { OnOk result (IsBounded self.new) }
        ensures asked { OnErr result ((r : Progress A.State) → Shows self.old r → (t : ℕ) × (shown : Bor Seen) × (shown.now ≡ seen r)
            × IsOneToLimit (seen r).started × G.step picker.old.choose shown t picker.new.choose) }
        ensures layout { layout_at self.new.runtime ≡ layout_at self.old.runtime }
        ensures picker { picker.new.limit ≡ picker.old.limit }
    {
        let turn = self.picked.len() as u32;
        let thread = picker.pick(&Seen {
            turn,
            started: self.runtime.started(),
            last: self.last,
            inside: self.inside,
        });
        observer.before(thread, self.runtime.actor(thread))?;
        self.picked.push(thread)?;
        let kind = self.runtime.turn(thread, policy)?;
        self.counts.count(kind);
        self.thread = Some(thread);
        self.last = Some(kind);
        self.inside = self.runtime.inside(thread);
        observer.after(kind, self.runtime.end())
    }

    /// Turns until the program ends, or so many.
    pub(crate) fn play<R: Rule, F: Fn(&Clash) -> Choice, G: FnMut(&Seen) -> u8, W: Observer<A>>(
        &mut self,
        picker: &mut Picker<G>,
        policy: &Policy<R, F>,
        observer: &mut W,
        bound: u32,
    ) -> Result<(), AllocError>
        ghost read: { A.State → W.Place }
        requires sees { (a : A) → W.place a ≡ read (A.state a) }
        requires fresh { Shows self.old (not_begun (machine_of self.old.runtime)) }
        requires bounded { IsBounded self.old }
        requires keeps { KeepsRule (F.IsAlwaysCallable policy.now.answer) (FnReturnsAt F.Fn policy.now.answer) R.allows }
        requires callable { (g : G) (s : _) → G.pre g s }
        requires below { (g h : G) (s : _) (t : _) → IsSeen s.now → G.step g s t h → t < picker.old.limit }
        requires limit { picker.old.limit ≡ THREAD_LIMIT }
        ensures played { OnOk result (Played (layout_at self.old.runtime)
            (λ c choice. FnReturnsAt F.Fn policy.now.answer c choice × (R.allows c choice ≡ true))
            (λ g s t h. (shown : Bor Seen) × (shown.now ≡ s) × IsOneToLimit s.started × G.step g shown t h)
            (record { place = read; shown = W.after_shown; told = W.after_told }) bound
            (machine_of self.old.runtime) self.new picker.old.choose picker.new.choose (W.state observer.old) (W.state observer.new)) }
        ensures asked { OnErr result ((slots : List Slot) × Asks A.thread (layout_at self.old.runtime)
            (λ c choice. FnReturnsAt F.Fn policy.now.answer c choice × (R.allows c choice ≡ true))
            (λ g s t h. (shown : Bor Seen) × (shown.now ≡ s) × IsOneToLimit s.started × G.step g shown t h)
            (machine_of self.old.runtime) slots picker.old.choose picker.new.choose) }
        ensures layout { layout_at self.new.runtime ≡ layout_at self.old.runtime }
        ensures picker { picker.new.limit ≡ picker.old.limit }
    {
        for _turn in 0..bound {
            if self.runtime.end().is_some() {
                return Ok(());
            }
            self.take_turn(picker, policy, observer)?;
        }
        Ok(())
    }
}

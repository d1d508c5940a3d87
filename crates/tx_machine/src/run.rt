//! Whole runs.
ghost use Rattle.std.specs.Prelude.{◌≡◌, ◌≤◌, ◌<◌, true, List, [], IfOk, OnErr};
ghost use Rattle.std.specs.Borrow.{Bor};
ghost use Rattle.std.specs.Fn.{FnReturnsAt};
ghost use Rattle.choosers.specs.Answers.{KeepsRule};
ghost use Rattle.choosers.specs.Picks.{IsSeen};
ghost use Rattle.choosers.specs.declared.Seen.{Seen};
ghost use Rattle.tx_events.specs.declared.TheConstants.{THREAD_LIMIT};
ghost use Rattle.tx_memory.specs.View.{layout_of, words_of};
ghost use Rattle.tx_serial.specs.Turn.{Slot, first_machine};
ghost use Rattle.tx_machine.specs.declared.TheConstants.{TURN_LIMIT};
ghost use Rattle.tx_machine.specs.Course.{Asks, IsOneToLimit};
ghost use Rattle.tx_machine.specs.Finished.{RunsTo, outcome_of};

use crate::TURN_LIMIT;
use crate::counts::Counts;
use crate::course::Course;
use crate::observer::Observer;
use choosers::picker::Picker;
use choosers::policy::{Policy, Rule};
use choosers::{Choice, Clash, Seen};
use std::alloc::{AllocError, Global};
use tx_events::{Actor, End, THREAD_LIMIT};
use tx_memory::Memory;
use tx_runtime::Runtime;

/// What a run came to.
#[derive(Drop)]
pub struct Ran<P> {
    /// The bytes of output.
    pub out: Vec<u8>,
    /// How the run ended: as the program did, or with `StepsOut`.
    pub end: End,
    /// The order in which turns and whole blocks took effect, by thread numbers.
    pub order: Vec<u8>,
    /// The thread of each turn.
    pub picked: Vec<u8>,
    /// How many turns executed a step, ended the program, put a word back or let one go.
    pub ran: u64,
    /// How many waited for a word or for a block.
    pub waited: u64,
    /// At how many a transaction began to give up.
    pub rolled: u64,
    /// How many waited for another thread's end, or were of a thread that was not started or has ended.
    pub idle: u64,
    /// Where the program trapped, exactly after a trap.
    pub place: Option<P>,
}

/// A run that has come to its end.
#[derive(Drop)]
pub struct Finished<A: Actor> {
    course: Course<A>,
    end: End,
}

impl<A: Actor> Finished<A> {
    ghost use Rattle.std.specs.Prelude.{Option, option_copied};
    ghost use Rattle.tx_machine.specs.Ran.{IsRan};
    ghost use Rattle.std.specs.Option.{option_map};
    ghost use Rattle.tx_machine.specs.Course.{counts_of};

    /// The bytes of output.
    pub fn out(&self) -> &[u8]
        ensures { result.now ≡ (outcome_of self.now).out }
    {
        self.course.runtime.out()
    }

    /// How the run ended: as the program did, or with `StepsOut`.
    pub fn end(&self) -> End
        ensures { result ≡ (outcome_of self.now).end }
    {
        self.end
    }

    /// The order in which turns and whole blocks took effect, by thread numbers.
    pub fn order(&self) -> &[u8]
        ensures { result.now ≡ (outcome_of self.now).order }
    {
        self.course.runtime.order()
    }

    /// The thread of each turn.
    pub fn picked(&self) -> &[u8]
        ensures { result.now ≡ (outcome_of self.now).picked }
    {
        self.course.picked.as_slice()
    }

    /// How many turns were of which kind.
    pub fn counts(&self) -> Counts
        ensures { counts_of result ≡ (outcome_of self.now).counts }
    {
        self.course.counts
    }

    /// Where the program trapped: the thread of the last turn, which stands where it stood before that turn.
    pub fn place(&self) -> Option<&A>
        ensures { option_map A.state (option_copied result) ≡ (outcome_of self.now).place }
    {
        match self.end {
            End::Trapped(_) => self.course.runtime.actor(self.course.thread?),
            _ => None,
        }
    }

    /// What the run came to, with this place.
    pub fn into_ran<P: Drop>(self, alloc: Global, place: Option<P>) -> Result<Ran<P>, AllocError>
        ensures { IfOk result (λ ran. IsRan (outcome_of self) place ran) }
    {
        let out = self.course.runtime.out().to_vec(alloc)?;
        let order = self.course.runtime.order().to_vec(alloc)?;
        let counts = self.course.counts;
        Ok(Ran {
            out,
            end: self.end,
            order,
            picked: self.course.picked,
            ran: counts.ran,
            waited: counts.waited,
            rolled: counts.rolled,
            idle: counts.idle,
            place,
        })
    }
}

/// Runs the threads that begin with `main` on this memory and input. Each turn is of the thread that the picker picks; the
/// policy is asked at each clash; the observer is shown each turn. The run stops at the program's end, or with
/// `StepsOut` after `bound` turns. After `AllocError` the picker has been asked once for each turn that was taken, and at
/// most once more.
pub fn run_actor<A: Actor, R: Rule, F: Fn(&Clash) -> Choice, G: FnMut(&Seen) -> u8, W: Observer<A>>(
    alloc: Global,
    main: A,
    memory: Memory,
    input: Vec<u8>,
    picker: &mut Picker<G>,
    policy: &Policy<R, F>,
    bound: u32,
    observer: &mut W,
) -> Result<Finished<A>, AllocError>
    ghost read: { A.State → W.Place }
    requires sees { (a : A) → W.place a ≡ read (A.state a) }
    requires memory { (layout_of memory).limit ≡ THREAD_LIMIT }
    requires bound { bound ≤ TURN_LIMIT }
    requires reached { A.is_reached (A.state main) }
    requires free { A.thread.blocks (A.state main) ≡ [] }
    requires keeps { KeepsRule (F.IsAlwaysCallable policy.now.answer) (FnReturnsAt F.Fn policy.now.answer) R.allows }
    requires callable { (g : G) (s : _) → G.pre g s }
    requires below { (g h : G) (s : _) (t : _) → IsSeen s.now → G.step g s t h → t < picker.old.limit }
    requires limit { picker.old.limit ≡ THREAD_LIMIT }
    ensures run { IfOk result (λ finished. RunsTo A.thread (layout_of memory)
        (λ c choice. FnReturnsAt F.Fn policy.now.answer c choice × (R.allows c choice ≡ true))
        (λ g s t h. (shown : Bor Seen) × (shown.now ≡ s) × IsOneToLimit s.started × G.step g shown t h)
        (record { place = read; shown = W.after_shown; told = W.after_told }) bound (words_of memory) input.items (A.state main)
        picker.old.choose picker.new.choose (W.state observer.old) (W.state observer.new) (outcome_of finished)) }
    ensures asked { OnErr result ((slots : List Slot) × Asks A.thread (layout_of memory)
        (λ c choice. FnReturnsAt F.Fn policy.now.answer c choice × (R.allows c choice ≡ true))
        (λ g s t h. (shown : Bor Seen) × (shown.now ≡ s) × IsOneToLimit s.started × G.step g shown t h)
        (first_machine (words_of memory) input.items (A.state main)) slots picker.old.choose picker.new.choose) }
    ensures picker { picker.new.limit ≡ picker.old.limit }
{
    let runtime = Runtime::new(alloc, main, memory, input, THREAD_LIMIT)?;
    let mut course = Course::new(alloc, runtime);
    course.play(picker, policy, observer, bound)?;
    let end = course.end();
    Ok(Finished { course, end })
}

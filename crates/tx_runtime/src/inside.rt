//! The rows of a thread whose transaction is open.
ghost use Rattle.std.specs.Prelude.{◌≡◌, ℕ, ◌<◌, Bool, true, false, List, Some, None, length, IfOk, OnErr, IfSome, IfNone};
ghost use Rattle.std.specs.Fn.{FnReturnsAt};
ghost use Rattle.choosers.specs.Answers.{KeepsRule};
ghost use Rattle.tx_events.specs.Memory.{can_access, load, word_of};
ghost use Rattle.tx_events.specs.declared.BlockKind.{BlockKind};
ghost use Rattle.tx_events.specs.declared.Event.TheVariants.{Load, Store, BeginAtomic, EndAtomic, Raise};
ghost use Rattle.tx_events.specs.declared.BlockKind.TheVariants.{Cancel};
ghost use Rattle.tx_events.specs.declared.Reply.TheVariants.{Nothing};
ghost use Rattle.tx_memory.specs.View.{words_of};
ghost use Rattle.tx_runtime.specs.Here.{GoesInside, IsOpen, Turns, Chosen, PassesInside, LeavesBlock, Commits};
ghost use Rattle.tx_runtime.specs.Allocation.{MayAllocate};
ghost use Rattle.tx_runtime.specs.Saves.{newest};
ghost use Rattle.tx_serial.specs.Turn.{cancels};
ghost use Rattle.tx_events.specs.declared.TurnKind.TheVariants.{Undone};
ghost use Rattle.tx_runtime.specs.View.{machine_in, layout_in};
ghost use Rattle.tx_serial.specs.Machine.{blocker, Local, Save, OpenTx};

use crate::access::word_of;
use crate::engine::Engine;
use choosers::policy::{Policy, Rule};
use choosers::{Choice, Clash};
use own_table::Mode;
use std::alloc::AllocError;
use tx_events::{Actor, BlockKind, End, Reply, Trap, TurnKind};

impl<A: Actor> Engine<A, A::Saved> {
    /// A step that no other thread sees, or that only nests: Silent, BeginSync or EndSync.
    pub(crate) fn pass(&mut self, t: u8) -> Result<TurnKind, AllocError>
        requires here { PassesInside A.is_reached A.thread t (machine_in A.state A.saved_state self.old) }
        ensures turned { IfOk result (λ kind. Turns A.state A.saved_state A.thread t self.old kind self.new) }
        ensures same { OnErr result (machine_in A.state A.saved_state self.new ≡ machine_in A.state A.saved_state self.old) }
        ensures layout { layout_in self.new ≡ layout_in self.old }
    {
        self.step_alone(t, Reply::Nothing)
    }

    /// A load reads, unless a transaction of another thread has stored to the word.
    pub(crate) fn load_inside<R: Rule, F: Fn(&Clash) -> Choice>(
        &mut self,
        t: u8,
        addr: u64,
        size: u8,
        policy: &Policy<R, F>,
    ) -> Result<TurnKind, AllocError>
        requires here { (vol : Bool) × GoesInside A.is_reached A.thread t (machine_in A.state A.saved_state self.old) (Load addr size vol) }
        requires keeps { KeepsRule (F.IsAlwaysCallable policy.now.answer) (FnReturnsAt F.Fn policy.now.answer) R.allows }
        ensures chosen { IfOk result (λ kind. Chosen A.thread (layout_in self.old) (FnReturnsAt F.Fn policy.now.answer) R.allows t
            (machine_in A.state A.saved_state self.old) kind (machine_in A.state A.saved_state self.new)) }
        ensures same { OnErr result (machine_in A.state A.saved_state self.new ≡ machine_in A.state A.saved_state self.old) }
        ensures layout { layout_in self.new ≡ layout_in self.old }
    {
        let Some(value) = self.memory.load(addr, size) else {
            return self.halt(t, End::Trapped(Trap::BadAddress));
        };
        let word = word_of(addr);
        match self.blockers(t, word, false) {
            Some(blockers) => self.clash(t, word, blockers, policy),
            None => self.read_inside(t, addr, value),
        }
    }

    /// A load that nothing keeps off: the thread holds the word.
    fn read_inside(&mut self, t: u8, addr: u64, value: u64) -> Result<TurnKind, AllocError>
        requires here { (size : ℕ) × (vol : Bool) × (value ≡ load (words_of self.old.memory) addr size)
            × (can_access (layout_in self.old) addr size ≡ true) × GoesInside A.is_reached A.thread t (machine_in A.state A.saved_state self.old) (Load addr size vol) }
        requires free { blocker t false (word_of addr) (machine_in A.state A.saved_state self.old) ≡ None }
        ensures turned { IfOk result (λ kind. Turns A.state A.saved_state A.thread t self.old kind self.new) }
        ensures same { OnErr result (machine_in A.state A.saved_state self.new ≡ machine_in A.state A.saved_state self.old) }
        ensures layout { layout_in self.new ≡ layout_in self.old }
    {
        let word = word_of(addr);
        self.ready(t)?;
        self.holders.reserve(word)?;
        self.holders.take(word, t, Mode::Read);
        let thread = &mut self.threads[t as usize];
        thread.go_on(Reply::Loaded { value });
        Ok(TurnKind::Ran)
    }

    /// A store writes, unless a transaction of another thread holds the word.
    pub(crate) fn store_inside<R: Rule, F: Fn(&Clash) -> Choice>(
        &mut self,
        t: u8,
        addr: u64,
        size: u8,
        value: u64,
        policy: &Policy<R, F>,
    ) -> Result<TurnKind, AllocError>
        requires here { (vol : Bool) × GoesInside A.is_reached A.thread t (machine_in A.state A.saved_state self.old) (Store addr size value vol) }
        requires keeps { KeepsRule (F.IsAlwaysCallable policy.now.answer) (FnReturnsAt F.Fn policy.now.answer) R.allows }
        ensures chosen { IfOk result (λ kind. Chosen A.thread (layout_in self.old) (FnReturnsAt F.Fn policy.now.answer) R.allows t
            (machine_in A.state A.saved_state self.old) kind (machine_in A.state A.saved_state self.new)) }
        ensures same { OnErr result (machine_in A.state A.saved_state self.new ≡ machine_in A.state A.saved_state self.old) }
        ensures layout { layout_in self.new ≡ layout_in self.old }
    {
        let Some(_old) = self.memory.load(addr, size) else {
            return self.halt(t, End::Trapped(Trap::BadAddress));
        };
        let word = word_of(addr);
        match self.blockers(t, word, true) {
            Some(blockers) => self.clash(t, word, blockers, policy),
            None => self.write_inside(t, addr, size, value),
        }
    }

    /// A store that nothing keeps off: the thread holds the word, and the log keeps its bytes.
    fn write_inside(
        &mut self,
        t: u8,
        addr: u64,
        size: u8,
        value: u64,
    ) -> Result<TurnKind, AllocError>
        requires here { (vol : Bool) × GoesInside A.is_reached A.thread t (machine_in A.state A.saved_state self.old) (Store addr size value vol) }
        requires access { can_access (layout_in self.old) addr size ≡ true }
        requires free { blocker t true (word_of addr) (machine_in A.state A.saved_state self.old) ≡ None }
        ensures turned { IfOk result (λ kind. Turns A.state A.saved_state A.thread t self.old kind self.new) }
        ensures same { OnErr result (machine_in A.state A.saved_state self.new ≡ machine_in A.state A.saved_state self.old) }
        ensures layout { layout_in self.new ≡ layout_in self.old }
    {
        let word = word_of(addr);
        let Some(old) = self.memory.load(word, 8) else {
            unreachable!()
        };
        self.ready_to_note(t, word)?;
        self.holders.reserve(word)?;
        self.holders.take(word, t, Mode::Write);
        self.memory.store(addr, size, value);
        let thread = &mut self.threads[t as usize];
        thread.write(word, old);
        Ok(TurnKind::Ran)
    }

    /// An atomic block begins in another one.
    pub(crate) fn begin_inner(&mut self, t: u8) -> Result<TurnKind, AllocError>
        requires here { (kind : BlockKind) × GoesInside A.is_reached A.thread t (machine_in A.state A.saved_state self.old) (BeginAtomic kind) }
        ensures turned { IfOk result (λ kind. Turns A.state A.saved_state A.thread t self.old kind self.new) }
        ensures same { OnErr result (machine_in A.state A.saved_state self.new ≡ machine_in A.state A.saved_state self.old) }
        ensures layout { layout_in self.new ≡ layout_in self.old }
    {
        self.ready_to_note(t, 0)?;
        let thread = &mut self.threads[t as usize];
        thread.enter();
        Ok(TurnKind::Ran)
    }

    /// The innermost block ends, and what it did stays.
    pub(crate) fn leave_block(&mut self, t: u8) -> Result<TurnKind, AllocError>
        requires here { LeavesBlock A.is_reached A.thread t (machine_in A.state A.saved_state self.old) }
        ensures done { IfOk result (λ kind. Commits A.state A.saved_state A.thread t self.old kind self.new) }
        ensures same { OnErr result (machine_in A.state A.saved_state self.new ≡ machine_in A.state A.saved_state self.old) }
        ensures layout { layout_in self.new ≡ layout_in self.old }
    {
        let marks = self.threads[t as usize].log.marks().len();
        if marks == 0 {
            Ok(TurnKind::Idle)
        } else if marks == 1 {
            self.leave_outermost(t)
        } else {
            self.leave_inner(t)
        }
    }

    /// The transaction is closing, or gone where the thread holds no word.
    fn leave_outermost(&mut self, t: u8) -> Result<TurnKind, AllocError>
        requires here { LeavesBlock A.is_reached A.thread t (machine_in A.state A.saved_state self.old) }
        requires one { (l : Local A.State) (b : ℕ) (k : A.State) (ss : List Save) → (machine_in A.state A.saved_state self.old).threads t ≡ Some l → l.tx ≡ OpenTx b k ss → length ss ≡ 1 }
        ensures done { IfOk result (λ kind. Commits A.state A.saved_state A.thread t self.old kind self.new) }
        ensures same { OnErr result (machine_in A.state A.saved_state self.new ≡ machine_in A.state A.saved_state self.old) }
        ensures layout { layout_in self.new ≡ layout_in self.old }
    {
        self.ready(t)?;
        self.order.reserve(1)?;
        self.order.push_reserved(t);
        let holds = self.holds_words(t);
        let thread = &mut self.threads[t as usize];
        thread.leave(holds);
        Ok(TurnKind::Ran)
    }

    /// The newest savepoint is dropped, and hands its notes down.
    fn leave_inner(&mut self, t: u8) -> Result<TurnKind, AllocError>
        requires here { LeavesBlock A.is_reached A.thread t (machine_in A.state A.saved_state self.old) }
        requires more { (l : Local A.State) (b : ℕ) (k : A.State) (ss : List Save) → (machine_in A.state A.saved_state self.old).threads t ≡ Some l → l.tx ≡ OpenTx b k ss → 1 < length ss }
        ensures done { IfOk result (λ kind. Commits A.state A.saved_state A.thread t self.old kind self.new) }
        ensures same { OnErr result (machine_in A.state A.saved_state self.new ≡ machine_in A.state A.saved_state self.old) }
        ensures layout { layout_in self.new ≡ layout_in self.old }
    {
        self.ready(t)?;
        let thread = &mut self.threads[t as usize];
        thread.leave_inner();
        Ok(TurnKind::Ran)
    }

    pub(crate) fn end_atomic(&mut self, t: u8) -> Result<TurnKind, AllocError>
        requires here { GoesInside A.is_reached A.thread t (machine_in A.state A.saved_state self.old) EndAtomic }
        ensures turned { IfOk result (λ kind. Turns A.state A.saved_state A.thread t self.old kind self.new) }
        ensures same { OnErr result (machine_in A.state A.saved_state self.new ≡ machine_in A.state A.saved_state self.old) }
        ensures layout { layout_in self.new ≡ layout_in self.old }
    {
        self.leave_block(t)
    }

    /// An exception leaves the innermost block.
    pub(crate) fn raise(
        &mut self,
        t: u8,
        kind: BlockKind,
        cancels: bool,
    ) -> Result<TurnKind, AllocError>
        requires here { GoesInside A.is_reached A.thread t (machine_in A.state A.saved_state self.old) (Raise kind cancels) }
        ensures turned { IfOk result (λ kind. Turns A.state A.saved_state A.thread t self.old kind self.new) }
        ensures same { OnErr result (machine_in A.state A.saved_state self.new ≡ machine_in A.state A.saved_state self.old) }
        ensures capacity { OnErr result (MayAllocate A.thread (layout_in self.old) t (machine_in A.state A.saved_state self.old)) }
        ensures layout { layout_in self.new ≡ layout_in self.old }
    {
        match kind {
            BlockKind::NoExcept => self.halt(t, End::Abort),
            BlockKind::Commit => self.leave_block(t),
            BlockKind::Cancel => {
                if cancels {
                    self.cancel(t)
                } else {
                    self.halt(t, End::Abort)
                }
            }
        }
    }

    /// A word of the newest savepoint goes back; where it notes none, the block is left.
    fn cancel(&mut self, t: u8) -> Result<TurnKind, AllocError>
        requires here { GoesInside A.is_reached A.thread t (machine_in A.state A.saved_state self.old) (Raise Cancel true) }
        ensures turned { IfOk result (λ kind. Turns A.state A.saved_state A.thread t self.old kind self.new) }
        ensures same { OnErr result (machine_in A.state A.saved_state self.new ≡ machine_in A.state A.saved_state self.old) }
        ensures capacity { OnErr result (MayAllocate A.thread (layout_in self.old) t (machine_in A.state A.saved_state self.old)) }
        ensures layout { layout_in self.new ≡ layout_in self.old }
    {
        if self.threads[t as usize].log.marks().len() == 0 {
            return Ok(TurnKind::Idle);
        }
        match self.undo_newest(t) {
            Some(word) => Ok(TurnKind::Undone { word }),
            None => self.leave_block(t),
        }
    }

    /// The least word that the newest savepoint notes goes back: `None` exactly where it notes none.
    fn undo_newest(&mut self, t: u8) -> Option<u64>
        requires started { t < length self.old.threads.items }
        requires some { (l : Local A.State) (b : ℕ) (k : A.State) (ss : List Save) → (machine_in A.state A.saved_state self.old).threads t ≡ Some l → l.tx ≡ OpenTx b k ss → 0 < length ss }
        requires open { (l : Local A.State) → (machine_in A.state A.saved_state self.old).threads t ≡ Some l → IsOpen l }
        ensures none { IfNone result ((l : Local A.State) (b : ℕ) (k : A.State) (ss : List Save) (x : ℕ) → (machine_in A.state A.saved_state self.old).threads t ≡ Some l → l.tx ≡ OpenTx b k ss → newest ss x ≡ None) }
        ensures same { IfNone result (machine_in A.state A.saved_state self.new ≡ machine_in A.state A.saved_state self.old) }
        ensures done { IfSome result (λ word. (l : Local A.State) (b : ℕ) (k s : A.State) (ss : List Save) → (machine_in A.state A.saved_state self.old).threads t ≡ Some l → l.tx ≡ OpenTx b k ss
            → record { machine = machine_in A.state A.saved_state self.new; kind = Undone word } ≡ cancels (layout_in self.old) t (machine_in A.state A.saved_state self.old) l s b k ss) }
        ensures layout { layout_in self.new ≡ layout_in self.old }
    {
        let thread = &mut self.threads[t as usize];
        let Some(word) = thread.undo_newest(&mut self.memory) else {
            return None;
        };
        Some(word)
    }
}

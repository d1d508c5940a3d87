//! Giving up and closing: one word a turn.
ghost use Rattle.std.specs.Prelude.{◌≡◌, ℕ, ◌<◌, List, Some, None, length, slice_get, is_some, true, IfOk, OnErr};
ghost use Rattle.tx_runtime.specs.Here.{IsOpen, GivesUp, Closes, Turns};
ghost use Rattle.tx_runtime.specs.Allocation.{MayAllocate};
ghost use Rattle.own_table.specs.Table.{hold_of};
ghost use Rattle.tx_events.specs.Memory.{word_bound};
ghost use Rattle.tx_runtime.specs.Threads.{held_in, closed_by};
ghost use Rattle.tx_runtime.specs.View.{machine_in, layout_in};
ghost use Rattle.tx_runtime.specs.declared.thread.ThreadSlot.{ThreadSlot};
ghost use Rattle.tx_runtime.specs.declared.thread.Transaction.{Transaction};
ghost use Rattle.tx_events.specs.declared.TurnKind.TheVariants.{Rolled};
ghost use Rattle.tx_serial.specs.Machine.{Local, Save, Tx, OpenTx, least};
ghost use Rattle.tx_serial.specs.Turn.{clashes, closes};
ghost use Rattle.choosers.specs.declared.Choice.TheVariants.{Yield};

use crate::engine::Engine;
use std::alloc::AllocError;
use tx_events::{Actor, TurnKind};

impl<A: Actor> Engine<A, A::Saved> {
    /// The least word is released; where it was the last, the thread has no transaction.
    pub(crate) fn release(&mut self, t: u8) -> TurnKind
        requires here { Closes t (machine_in A.state A.saved_state self.old) }
        ensures turned { Turns A.state A.saved_state A.thread t self.old result self.new }
        ensures layout { layout_in self.new ≡ layout_in self.old }
    {
        let Some(word) = self.holders.release_one(t) else {
            return TurnKind::Idle;
        };
        let holds = self.holds_words(t);
        let thread = &mut self.threads[t as usize];
        thread.close(holds);
        TurnKind::Released { word }
    }

    /// Whether the thread holds a word.
    pub(crate) fn holds_words(&self, t: u8) -> bool
        requires { t < length self.now.threads.items }
        ensures { (b : ℕ) → ◌≡◌ {A = Tx A.State} (closed_by result b) (closes b (least (held_in self.now.holders t) (word_bound (layout_in self.now)))) }
    {
        self.holders.count(t) > 0
    }

    /// The least word goes back to the outermost savepoint and is released; where it was the last, the thread starts again.
    pub(crate) fn give_back(&mut self, t: u8) -> Result<TurnKind, AllocError>
        requires here { GivesUp t (machine_in A.state A.saved_state self.old) }
        ensures turned { IfOk result (λ kind. Turns A.state A.saved_state A.thread t self.old kind self.new) }
        ensures same { OnErr result (machine_in A.state A.saved_state self.new ≡ machine_in A.state A.saved_state self.old) }
        ensures capacity { OnErr result (MayAllocate A.thread (layout_in self.old) t (machine_in A.state A.saved_state self.old)) }
        ensures layout { layout_in self.new ≡ layout_in self.old }
    {
        let count = self.holders.count(t);
        if count == 0 {
            Ok(TurnKind::Idle)
        } else if count == 1 {
            self.give_back_last(t)
        } else {
            Ok(self.give_back_one(t))
        }
    }

    /// The least of several words goes back.
    fn give_back_one(&mut self, t: u8) -> TurnKind
        requires here { GivesUp t (machine_in A.state A.saved_state self.old) }
        requires more { (x y : ℕ) × ((x ≡ y → ⊥) × (held_in self.old.holders t x ≡ true) × (held_in self.old.holders t y ≡ true)) }
        ensures turned { Turns A.state A.saved_state A.thread t self.old result self.new }
        ensures layout { layout_in self.new ≡ layout_in self.old }
    {
        let Some(word) = self.holders.release_one(t) else {
            return TurnKind::Idle;
        };
        let thread = &mut self.threads[t as usize];
        thread.undo_word(&mut self.memory, word);
        TurnKind::Undone { word }
    }

    /// The last word goes back, and the thread starts again.
    fn give_back_last(&mut self, t: u8) -> Result<TurnKind, AllocError>
        requires here { GivesUp t (machine_in A.state A.saved_state self.old) }
        requires last { (x : ℕ) × ((held_in self.old.holders t x ≡ true) × ((y : ℕ) → held_in self.old.holders t y ≡ true → y ≡ x)) }
        ensures turned { IfOk result (λ kind. Turns A.state A.saved_state A.thread t self.old kind self.new) }
        ensures same { OnErr result (machine_in A.state A.saved_state self.new ≡ machine_in A.state A.saved_state self.old) }
        ensures layout { layout_in self.new ≡ layout_in self.old }
    {
        let copy = self.copy_kept(t)?;
        let Some(word) = self.holders.release_one(t) else {
            return Ok(TurnKind::Idle);
        };
        let thread = &mut self.threads[t as usize];
        thread.undo_word(&mut self.memory, word);
        thread.start_again(copy);
        Ok(TurnKind::Undone { word })
    }

    /// An open transaction yields: it begins to give up, or starts again where it holds no word.
    pub(crate) fn roll(&mut self, t: u8, word: u64, holder: u8) -> Result<TurnKind, AllocError>
        requires started { t < length self.old.threads.items }
        requires open { (l : Local A.State) → (machine_in A.state A.saved_state self.old).threads t ≡ Some l → IsOpen l }
        ensures done { IfOk result (λ kind. (l : Local A.State) (b : ℕ) (k : A.State) (ss : List Save) → (machine_in A.state A.saved_state self.old).threads t ≡ Some l → l.tx ≡ OpenTx b k ss
            → record { machine = machine_in A.state A.saved_state self.new; kind = kind } ≡ clashes (layout_in self.old) Yield t (machine_in A.state A.saved_state self.old) l b k ss word holder) }
        ensures same { OnErr result (machine_in A.state A.saved_state self.new ≡ machine_in A.state A.saved_state self.old) }
        ensures layout { layout_in self.new ≡ layout_in self.old }
    {
        if self.holders.count(t) == 0 {
            self.roll_bare(t, word, holder)
        } else {
            Ok(self.roll_holding(t, word, holder))
        }
    }

    /// The thread holds words: its transaction begins to give up.
    fn roll_holding(&mut self, t: u8, word: u64, holder: u8) -> TurnKind
        requires started { t < length self.old.threads.items }
        requires open { (l : Local A.State) → (machine_in A.state A.saved_state self.old).threads t ≡ Some l → IsOpen l }
        requires held { (x : ℕ) × (held_in self.old.holders t x ≡ true) }
        ensures done { (l : Local A.State) (b : ℕ) (k : A.State) (ss : List Save) → (machine_in A.state A.saved_state self.old).threads t ≡ Some l → l.tx ≡ OpenTx b k ss
            → record { machine = machine_in A.state A.saved_state self.new; kind = result } ≡ clashes (layout_in self.old) Yield t (machine_in A.state A.saved_state self.old) l b k ss word holder }
        ensures layout { layout_in self.new ≡ layout_in self.old }
    {
        let thread = &mut self.threads[t as usize];
        thread.give_up();
        TurnKind::Rolled { word, holder }
    }

    /// The thread holds no word: it starts again at once.
    fn roll_bare(&mut self, t: u8, word: u64, holder: u8) -> Result<TurnKind, AllocError>
        requires started { t < length self.old.threads.items }
        requires open { (l : Local A.State) → (machine_in A.state A.saved_state self.old).threads t ≡ Some l → IsOpen l }
        requires bare { (x : ℕ) → hold_of self.old.holders t x ≡ None }
        ensures done { IfOk result (λ kind. (l : Local A.State) (b : ℕ) (k : A.State) (ss : List Save) → (machine_in A.state A.saved_state self.old).threads t ≡ Some l → l.tx ≡ OpenTx b k ss
            → record { machine = machine_in A.state A.saved_state self.new; kind = kind } ≡ clashes (layout_in self.old) Yield t (machine_in A.state A.saved_state self.old) l b k ss word holder) }
        ensures same { OnErr result (machine_in A.state A.saved_state self.new ≡ machine_in A.state A.saved_state self.old) }
        ensures layout { layout_in self.new ≡ layout_in self.old }
    {
        let copy = self.copy_kept(t)?;
        let thread = &mut self.threads[t as usize];
        thread.start_again(copy);
        Ok(TurnKind::Rolled { word, holder })
    }

    /// Copies the state just after the thread's outermost BeginAtomic.
    fn copy_kept(&self, t: u8) -> Result<A::Saved, AllocError>
        requires started { t < length self.now.threads.items }
        requires tx { (s : ThreadSlot A A.Saved) → slice_get self.now.threads.items t ≡ Some s → is_some s.tx ≡ true }
        ensures { IfOk result (λ copy. (s : ThreadSlot A A.Saved) (x : Transaction A.Saved) → slice_get self.now.threads.items t ≡ Some s → s.tx ≡ Some x
            → A.saved_state copy ≡ A.saved_state x.kept) }
    {
        let thread = &self.threads[t as usize];
        thread.copy_kept()
    }
}

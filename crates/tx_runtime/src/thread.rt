//! A started thread and its transaction.
ghost use Rattle.std.specs.Prelude.{◌≡◌, ℕ, ◌<◌, ◌≤◌, ◌+◌, ◌^◌, Bool, true, false, List, [], ◌∷◌, length, is_some, Some, None, OnOk, OnErr, IfOk, IfSome, IfNone};
ghost use Rattle.own_table.specs.declared.table.Holders.{Holders};
ghost use Rattle.tx_events.specs.Memory.{MemoryLayout, can_access, update};
ghost use Rattle.tx_events.specs.Thread.{Answers};
ghost use Rattle.tx_events.specs.declared.Reply.TheVariants.{Nothing};
ghost use Rattle.tx_memory.specs.View.{layout_of, words_of};
ghost use Rattle.tx_runtime.specs.Saves.{saves_of, newest, handed, newest_without, IsFresh};
ghost use Rattle.tx_runtime.specs.Threads.{local_of, tx_of, waits_of, is_sound, has_saves, stage_of, birth_in, closed_by};
ghost use Rattle.tx_runtime.specs.declared.thread.Transaction.{Transaction};
ghost use Rattle.tx_serial.specs.Machine.{OpenTx, GivingUp, no_waits, no_save, wait_more, waits_at, kept_or, oldest, forget_all, note, is_noted};
ghost use Rattle.undo_log.specs.View.{notes_of, marks_of, HasCapacity};

use std::alloc::{AllocError, Global};
use tx_events::{Actor, Reply};
use tx_memory::Memory;
use undo_log::Log;

/// How far a transaction has come.
#[derive(Clone, Copy, PartialEq, Eq, Debug)]
pub(crate) enum Stage {
    Open,
    /// It gives up: its words go back one by one.
    Undoing,
    /// It has ended: its words are released one by one.
    Releasing,
}

/// A transaction, with the thread's state just after the outermost BeginAtomic.
#[derive(Drop)]
pub(crate) struct Transaction<K> {
    pub(crate) birth: u64,
    pub(crate) kept: K,
    pub(crate) stage: Stage,
}

/// The turns in a row that a thread has waited for one word against one least birth.
#[derive(Clone, Copy)]
pub(crate) struct WaitCount {
    pub(crate) word: u64,
    pub(crate) least: u64,
    pub(crate) turns: u32,
}

/// A started thread.
#[derive(Drop)]
pub(crate) struct ThreadSlot<A, K> {
    pub(crate) actor: A,
    pub(crate) ended: bool,
    pub(crate) waits: WaitCount,
    pub(crate) tx: Option<Transaction<K>>,
    /// Empty where no transaction can be put back.
    pub(crate) log: Log,
}

impl WaitCount {
    pub(crate) fn none() -> WaitCount
        ensures { waits_of result ≡ no_waits }
    {
        WaitCount {
            word: 0,
            least: 0,
            turns: 0,
        }
    }

    /// How many of the turns were at this word, against this least birth.
    pub(crate) fn at(self, word: u64, least: u64) -> u32
        ensures { result ≡ waits_at (waits_of self) word least }
    {
        if self.word == word && self.least == least {
            self.turns
        } else {
            0
        }
    }

    /// One turn more at this word, against this least birth.
    pub(crate) fn and_one(self, word: u64, least: u64) -> WaitCount
        ensures { waits_of result ≡ wait_more (waits_of self) word least }
    {
        WaitCount {
            word,
            least,
            turns: self.at(word, least).saturating_add(1),
        }
    }
}

impl<A: Actor> ThreadSlot<A, A::Saved> {
    /// A thread that has no transaction.
    pub(crate) fn new(alloc: Global, actor: A) -> ThreadSlot<A, A::Saved>
        ensures state { A.state result.actor ≡ A.state actor }
        ensures runs { result.ended ≡ false }
        ensures tx { result.tx ≡ None }
        ensures waits { waits_of result.waits ≡ no_waits }
        ensures sound { (p : MemoryLayout) → is_sound p result ≡ true }
    {
        ThreadSlot {
            actor,
            ended: false,
            waits: WaitCount::none(),
            tx: None,
            log: Log::new(alloc),
        }
    }

    /// How far the thread's transaction has come, if it has one.
    pub(crate) fn stage(&self) -> Option<Stage>
        ensures { result ≡ stage_of self.now.tx }
    {
        match &self.tx {
            Some(tx) => Some(tx.stage),
            None => None,
        }
    }

    /// Whether its transaction is open or gives up.
    pub(crate) fn is_live(&self) -> bool
        ensures { result ≡ has_saves self.now.tx }
    {
        match &self.tx {
            Some(tx) => tx.stage != Stage::Releasing,
            None => false,
        }
    }

    /// The birth of its transaction, or 0.
    pub(crate) fn birth(&self) -> u64
        ensures { result ≡ birth_in self.now.tx }
    {
        match &self.tx {
            Some(tx) => tx.birth,
            None => 0,
        }
    }

    /// Makes room for one step.
    pub(crate) fn ready(&mut self) -> Result<(), AllocError>
        ensures local { (holders : Holders) (t : ℕ) → local_of A.state A.saved_state holders t self.new ≡ local_of A.state A.saved_state holders t self.old }
        ensures waits { self.new.waits ≡ self.old.waits }
        ensures sound { (p : MemoryLayout) → is_sound p self.new ≡ is_sound p self.old }
        ensures capacity { OnOk result (A.has_capacity self.new.actor) }
    {
        self.actor.ready()
    }

    /// Makes room for one step, and for one note of the word or one savepoint more.
    pub(crate) fn ready_to_note(&mut self, word: u64) -> Result<(), AllocError>
        ensures local { (holders : Holders) (t : ℕ) → local_of A.state A.saved_state holders t self.new ≡ local_of A.state A.saved_state holders t self.old }
        ensures waits { self.new.waits ≡ self.old.waits }
        ensures sound { (p : MemoryLayout) → is_sound p self.new ≡ is_sound p self.old }
        ensures capacity { OnOk result (A.has_capacity self.new.actor × HasCapacity self.new.log) }
    {
        self.log.reserve(word)?;
        self.actor.ready()
    }

    /// Goes on after the next event, which was answered so. Its waits are over.
    pub(crate) fn go_on(&mut self, reply: Reply)
        requires capacity { A.has_capacity self.old.actor }
        requires answers { Answers (A.thread.next (A.state self.old.actor)) reply }
        ensures local { (holders : Holders) (t : ℕ) → local_of A.state A.saved_state holders t self.new
            ≡ record (local_of A.state A.saved_state holders t self.old) {
              state = A.thread.after (A.state self.old.actor) reply;
            } }
        ensures waits { waits_of self.new.waits ≡ no_waits }
        ensures sound { (p : MemoryLayout) → is_sound p self.new ≡ is_sound p self.old }
    {
        self.actor.take(reply);
        self.waits = WaitCount::none();
    }

    /// Goes on after `Done`: the thread has ended.
    pub(crate) fn finish(&mut self)
        requires capacity { A.has_capacity self.old.actor }
        requires answers { Answers (A.thread.next (A.state self.old.actor)) Nothing }
        ensures local { (holders : Holders) (t : ℕ) → local_of A.state A.saved_state holders t self.new
            ≡ record (local_of A.state A.saved_state holders t self.old) {
              state = A.thread.after (A.state self.old.actor) Nothing;
              ended = true;
            } }
        ensures waits { waits_of self.new.waits ≡ no_waits }
        ensures sound { (p : MemoryLayout) → is_sound p self.new ≡ is_sound p self.old }
    {
        self.go_on(Reply::Nothing);
        self.ended = true;
    }

    /// Waits one turn more for the word, against that least birth.
    pub(crate) fn wait(&mut self, word: u64, least: u64)
        ensures local { (holders : Holders) (t : ℕ) → local_of A.state A.saved_state holders t self.new ≡ local_of A.state A.saved_state holders t self.old }
        ensures waits { waits_of self.new.waits ≡ wait_more (waits_of self.old.waits) word least }
        ensures sound { (p : MemoryLayout) → is_sound p self.new ≡ is_sound p self.old }
    {
        self.waits = self.waits.and_one(word, least);
    }

    /// Notes what the word holds, before a store to it.
    pub(crate) fn note(&mut self, word: u64, old: u64)
        requires capacity { HasCapacity self.old.log }
        requires live { has_saves self.old.tx ≡ true }
        ensures local { (holders : Holders) (t : ℕ) → local_of A.state A.saved_state holders t self.new
            ≡ record (local_of A.state A.saved_state holders t self.old) {
              tx = tx_of A.saved_state self.old.tx (note (saves_of self.old.log) word old);
            } }
        ensures sound { (p : MemoryLayout) → can_access p word 8 ≡ true → is_sound p self.old ≡ true → is_sound p self.new ≡ true }
        ensures actor { self.new.actor ≡ self.old.actor }
    {
        if self.log.marks().len() > 0 {
            self.log.note(word, old);
        }
    }

    /// Sets a savepoint.
    pub(crate) fn mark(&mut self)
        requires capacity { HasCapacity self.old.log }
        requires live { has_saves self.old.tx ≡ true }
        ensures local { (holders : Holders) (t : ℕ) → local_of A.state A.saved_state holders t self.new
            ≡ record (local_of A.state A.saved_state holders t self.old) {
              tx = tx_of A.saved_state self.old.tx (no_save ∷ saves_of self.old.log);
            } }
        ensures sound { (p : MemoryLayout) → is_sound p self.old ≡ true → is_sound p self.new ≡ true }
        ensures actor { self.new.actor ≡ self.old.actor }
    {
        let _ = self.log.mark();
    }

    /// Drops the newest savepoint of several, which hands its notes down.
    pub(crate) fn drop_savepoint(&mut self)
        requires { 1 < length (marks_of self.old.log) }
        ensures local { (holders : Holders) (t : ℕ) → local_of A.state A.saved_state holders t self.new
            ≡ record (local_of A.state A.saved_state holders t self.old) {
              tx = tx_of A.saved_state self.old.tx (handed (saves_of self.old.log));
            } }
        ensures sound { (p : MemoryLayout) → is_sound p self.old ≡ true → is_sound p self.new ≡ true }
        ensures actor { self.new.actor ≡ self.old.actor }
    {
        let mark = self.log.marks().len() - 1;
        self.log.drop_mark(mark);
    }

    /// Goes on after a `Store`, and notes what the word held before.
    pub(crate) fn write(&mut self, word: u64, old: u64)
        requires actor { A.has_capacity self.old.actor }
        requires answers { Answers (A.thread.next (A.state self.old.actor)) Nothing }
        requires capacity { HasCapacity self.old.log }
        requires live { has_saves self.old.tx ≡ true }
        ensures local { (holders : Holders) (t : ℕ) → local_of A.state A.saved_state holders t self.new
            ≡ record (local_of A.state A.saved_state holders t self.old) {
              state = A.thread.after (A.state self.old.actor) Nothing;
              tx = tx_of A.saved_state self.old.tx (note (saves_of self.old.log) word old);
            } }
        ensures waits { waits_of self.new.waits ≡ no_waits }
        ensures sound { (p : MemoryLayout) → can_access p word 8 ≡ true → is_sound p self.old ≡ true → is_sound p self.new ≡ true }
    {
        self.note(word, old);
        self.go_on(Reply::Nothing);
    }

    /// Enters an atomic block in another one.
    pub(crate) fn enter(&mut self)
        requires actor { A.has_capacity self.old.actor }
        requires answers { Answers (A.thread.next (A.state self.old.actor)) Nothing }
        requires capacity { HasCapacity self.old.log }
        requires live { has_saves self.old.tx ≡ true }
        ensures local { (holders : Holders) (t : ℕ) → local_of A.state A.saved_state holders t self.new
            ≡ record (local_of A.state A.saved_state holders t self.old) {
              state = A.thread.after (A.state self.old.actor) Nothing;
              tx = tx_of A.saved_state self.old.tx (no_save ∷ saves_of self.old.log);
            } }
        ensures waits { waits_of self.new.waits ≡ no_waits }
        ensures sound { (p : MemoryLayout) → is_sound p self.old ≡ true → is_sound p self.new ≡ true }
    {
        self.mark();
        self.go_on(Reply::Nothing);
    }

    /// Leaves an atomic block that is in another one.
    pub(crate) fn leave_inner(&mut self)
        requires actor { A.has_capacity self.old.actor }
        requires answers { Answers (A.thread.next (A.state self.old.actor)) Nothing }
        requires marks { 1 < length (marks_of self.old.log) }
        ensures local { (holders : Holders) (t : ℕ) → local_of A.state A.saved_state holders t self.new
            ≡ record (local_of A.state A.saved_state holders t self.old) {
              state = A.thread.after (A.state self.old.actor) Nothing;
              tx = tx_of A.saved_state self.old.tx (handed (saves_of self.old.log));
            } }
        ensures waits { waits_of self.new.waits ≡ no_waits }
        ensures sound { (p : MemoryLayout) → is_sound p self.old ≡ true → is_sound p self.new ≡ true }
    {
        self.drop_savepoint();
        self.go_on(Reply::Nothing);
    }

    /// Leaves the outermost atomic block.
    pub(crate) fn leave(&mut self, holds: bool)
        requires actor { A.has_capacity self.old.actor }
        requires answers { Answers (A.thread.next (A.state self.old.actor)) Nothing }
        requires tx { is_some self.old.tx ≡ true }
        ensures local { (holders : Holders) (t : ℕ) → local_of A.state A.saved_state holders t self.new
            ≡ record (local_of A.state A.saved_state holders t self.old) {
              state = A.thread.after (A.state self.old.actor) Nothing;
              tx = closed_by holds (birth_in self.old.tx);
            } }
        ensures waits { waits_of self.new.waits ≡ no_waits }
        ensures sound { (p : MemoryLayout) → is_sound p self.new ≡ true }
    {
        self.close(holds);
        self.go_on(Reply::Nothing);
    }

    /// The outermost block has ended. What the thread holds is to be released.
    pub(crate) fn close(&mut self, holds: bool)
        requires { is_some self.old.tx ≡ true }
        ensures local { (holders : Holders) (t : ℕ) → local_of A.state A.saved_state holders t self.new
            ≡ record (local_of A.state A.saved_state holders t self.old) { tx = closed_by holds (birth_in self.old.tx) } }
        ensures waits { waits_of self.new.waits ≡ no_waits }
        ensures sound { (p : MemoryLayout) → is_sound p self.new ≡ true }
        ensures actor { self.new.actor ≡ self.old.actor }
    {
        self.log.clear();
        self.waits = WaitCount::none();
        if holds {
            if let Some(tx) = &mut self.tx {
                tx.stage = Stage::Releasing;
            }
        } else {
            self.tx = None;
        }
    }

    /// The transaction begins to give up.
    pub(crate) fn give_up(&mut self)
        requires { 0 < length (marks_of self.old.log) }
        ensures local { (holders : Holders) (t : ℕ) (x : Transaction A.Saved) → self.old.tx ≡ Some x
            → local_of A.state A.saved_state holders t self.new ≡ record (local_of A.state A.saved_state holders t self.old) {
              tx = GivingUp x.birth (A.saved_state x.kept) (saves_of self.old.log);
            } }
        ensures waits { waits_of self.new.waits ≡ no_waits }
        ensures sound { (p : MemoryLayout) → has_saves self.old.tx ≡ true → is_sound p self.old ≡ true → is_sound p self.new ≡ true }
    {
        self.order();
        self.waits = WaitCount::none();
        if let Some(tx) = &mut self.tx {
            tx.stage = Stage::Undoing;
        }
    }

    /// Copies the kept state.
    pub(crate) fn copy_kept(&self) -> Result<A::Saved, AllocError>
        requires { is_some self.now.tx ≡ true }
        ensures { IfOk result (λ copy. (x : Transaction A.Saved) → self.now.tx ≡ Some x → A.saved_state copy ≡ A.saved_state x.kept) }
    {
        match &self.tx {
            Some(tx) => self.actor.copy_saved(&tx.kept),
            None => unreachable!(),
        }
    }

    /// Puts the notes of the newest savepoint in order, so that its words can be undone without a search.
    fn order(&mut self)
        requires { 0 < length (marks_of self.old.log) }
        ensures local { (holders : Holders) (t : ℕ) → local_of A.state A.saved_state holders t self.new ≡ local_of A.state A.saved_state holders t self.old }
        ensures saves { saves_of self.new.log ≡ saves_of self.old.log }
        ensures marks { marks_of self.new.log ≡ marks_of self.old.log }
        ensures waits { self.new.waits ≡ self.old.waits }
        ensures tx { self.new.tx ≡ self.old.tx }
        ensures sound { (p : MemoryLayout) → is_sound p self.old ≡ true → is_sound p self.new ≡ true }
    {
        self.log.order_newest();
    }

    /// Stands again just after the outermost BeginAtomic, in this copy of the kept state.
    pub(crate) fn start_again(&mut self, copy: A::Saved)
        requires { 0 < length (marks_of self.old.log) }
        ensures local { (holders : Holders) (t : ℕ) (x : Transaction A.Saved) → self.old.tx ≡ Some x
            → local_of A.state A.saved_state holders t self.new ≡ record (local_of A.state A.saved_state holders t self.old) {
              state = A.saved_state copy;
              tx = OpenTx x.birth (A.saved_state x.kept) (no_save ∷ []);
            } }
        ensures waits { waits_of self.new.waits ≡ no_waits }
        ensures sound { (p : MemoryLayout) → is_some self.old.tx ≡ true → is_sound p self.new ≡ true }
    {
        self.actor.restore(copy);
        self.waits = WaitCount::none();
        self.log.start_over();
        if let Some(tx) = &mut self.tx {
            tx.stage = Stage::Open;
        }
    }

    /// Enters an outermost atomic block. On `AllocError` the thread is as before.
    pub(crate) fn begin(&mut self, birth: u64) -> Result<(), AllocError>
        requires capacity { A.has_capacity self.old.actor }
        requires log { HasCapacity self.old.log }
        requires answers { Answers (A.thread.next (A.state self.old.actor)) Nothing }
        requires notes { notes_of self.old.log ≡ [] }
        requires marks { marks_of self.old.log ≡ [] }
        ensures local { OnOk result ((holders : Holders) (t : ℕ) → local_of A.state A.saved_state holders t self.new
            ≡ record (local_of A.state A.saved_state holders t self.old) {
              state = A.thread.after (A.state self.old.actor) Nothing;
              tx = OpenTx birth (A.thread.after (A.state self.old.actor) Nothing) (no_save ∷ []);
            }) }
        ensures waits { OnOk result (waits_of self.new.waits ≡ no_waits) }
        ensures sound { (p : MemoryLayout) → is_sound p self.old ≡ true → is_sound p self.new ≡ true }
        ensures same { OnErr result ((holders : Holders) (t : ℕ) → local_of A.state A.saved_state holders t self.new ≡ local_of A.state A.saved_state holders t self.old) }
        ensures same_waits { OnErr result (self.new.waits ≡ self.old.waits) }
    {
        let before = self.actor.save()?;
        self.actor.take(Reply::Nothing);
        match self.actor.save() {
            Ok(kept) => {
                let _ = self.log.mark();
                self.tx = Some(Transaction {
                    birth,
                    kept,
                    stage: Stage::Open,
                });
                self.waits = WaitCount::none();
                Ok(())
            }
            Err(error) => {
                self.actor.restore(before);
                Err(error)
            }
        }
    }

    /// Gives the word back what it held at the outermost savepoint, and forgets its notes.
    pub(crate) fn undo_word(&mut self, memory: &mut Memory, word: u64)
        requires word { can_access (layout_of memory.old) word 8 ≡ true }
        requires sound { is_sound (layout_of memory.old) self.old ≡ true }
        ensures layout { layout_of memory.new ≡ layout_of memory.old }
        ensures words { words_of memory.new ≡ update (words_of memory.old) word
            (kept_or (oldest (saves_of self.old.log) word) (words_of memory.old word)) }
        ensures local { (holders : Holders) (t : ℕ) → local_of A.state A.saved_state holders t self.new
            ≡ record (local_of A.state A.saved_state holders t self.old) {
              tx = tx_of A.saved_state self.old.tx (forget_all (saves_of self.old.log) word);
            } }
        ensures waits { waits_of self.new.waits ≡ no_waits }
        ensures sound { is_sound (layout_of memory.old) self.new ≡ true }
        ensures tx { self.new.tx ≡ self.old.tx }
        ensures actor { self.new.actor ≡ self.old.actor }
    {
        self.log.undo_word(memory, word);
        self.waits = WaitCount::none();
    }

    /// Gives the least word that the newest savepoint notes what it notes, forgets the note and answers the word: `None`
    /// exactly where it notes none, and then nothing changes.
    pub(crate) fn undo_newest(&mut self, memory: &mut Memory) -> Option<u64>
        requires mark { 0 < length (marks_of self.old.log) }
        requires sound { is_sound (layout_of memory.old) self.old ≡ true }
        ensures none { IfNone result ((x : ℕ) → newest (saves_of self.old.log) x ≡ None) }
        ensures noted { IfSome result (λ w. is_noted (newest (saves_of self.old.log)) w ≡ true) }
        ensures least { IfSome result (λ w. (v : ℕ) → v < w → is_noted (newest (saves_of self.old.log)) v ≡ false) }
        ensures access { IfSome result (λ w. can_access (layout_of memory.old) w 8 ≡ true) }
        ensures layout { layout_of memory.new ≡ layout_of memory.old }
        ensures words { IfSome result (λ w. words_of memory.new ≡ update (words_of memory.old) w
            (kept_or (newest (saves_of self.old.log) w) (words_of memory.old w))) }
        ensures local { IfSome result (λ w. (holders : Holders) (t : ℕ) → local_of A.state A.saved_state holders t self.new
            ≡ record (local_of A.state A.saved_state holders t self.old) {
              tx = tx_of A.saved_state self.old.tx (newest_without w (saves_of self.old.log));
            }) }
        ensures waits { IfSome result (λ w. waits_of self.new.waits ≡ no_waits) }
        ensures same_words { IfNone result (words_of memory.new ≡ words_of memory.old) }
        ensures same { IfNone result ((holders : Holders) (t : ℕ) → local_of A.state A.saved_state holders t self.new ≡ local_of A.state A.saved_state holders t self.old) }
        ensures same_waits { IfNone result (self.new.waits ≡ self.old.waits) }
        ensures sound { is_sound (layout_of memory.old) self.new ≡ true }
    {
        self.order();
        self.undo_least(memory)
    }

    /// The same, in whatever order the notes stand.
    fn undo_least(&mut self, memory: &mut Memory) -> Option<u64>
        requires mark { 0 < length (marks_of self.old.log) }
        requires sound { is_sound (layout_of memory.old) self.old ≡ true }
        ensures none { IfNone result ((x : ℕ) → newest (saves_of self.old.log) x ≡ None) }
        ensures noted { IfSome result (λ w. is_noted (newest (saves_of self.old.log)) w ≡ true) }
        ensures least { IfSome result (λ w. (v : ℕ) → v < w → is_noted (newest (saves_of self.old.log)) v ≡ false) }
        ensures access { IfSome result (λ w. can_access (layout_of memory.old) w 8 ≡ true) }
        ensures layout { layout_of memory.new ≡ layout_of memory.old }
        ensures words { IfSome result (λ w. words_of memory.new ≡ update (words_of memory.old) w
            (kept_or (newest (saves_of self.old.log) w) (words_of memory.old w))) }
        ensures local { IfSome result (λ w. (holders : Holders) (t : ℕ) → local_of A.state A.saved_state holders t self.new
            ≡ record (local_of A.state A.saved_state holders t self.old) {
              tx = tx_of A.saved_state self.old.tx (newest_without w (saves_of self.old.log));
            }) }
        ensures waits { IfSome result (λ w. waits_of self.new.waits ≡ no_waits) }
        ensures same_words { IfNone result (words_of memory.new ≡ words_of memory.old) }
        ensures same { IfNone result ((holders : Holders) (t : ℕ) → local_of A.state A.saved_state holders t self.new ≡ local_of A.state A.saved_state holders t self.old) }
        ensures same_waits { IfNone result (self.new.waits ≡ self.old.waits) }
        ensures sound { is_sound (layout_of memory.old) self.new ≡ true }
    {
        let Some(word) = self.log.undo_newest(memory) else {
            return None;
        };
        self.waits = WaitCount::none();
        Some(word)
    }
}

//! The open atomic blocks of one thread, and how memory goes back to where one of them began.

ghost use Rattle.std.specs.Prelude.{◌≡◌, ◌≢◌, ◌<◌, ◌^◌, ◌*◌, ◌-◌, ◌++◌, ◌∷◌, [], true, false, ◌==◌, length, take, IfOk, OnOk};
ghost use Rattle.tx_events.specs.Memory.{can_access, store as stored, word_of as word_at};
ghost use Rattle.tx_events.specs.Thread.{is_size};
ghost use Rattle.tx_memory.specs.View.{layout_of, words_of};
ghost use Rattle.src_replay.specs.Undone.{are_words, undone, IsNested, Ended, Cancelled};

use std::alloc::{AllocError, Global};
use tx_memory::Memory;

/// A word, and what it held before a store.
#[derive(Clone, Copy)]
pub(crate) struct Note {
    pub(crate) word: u64,
    pub(crate) old: u64,
}

/// What the stores in the open blocks wrote over, and for each open block how many stores there were before it.
#[derive(Drop)]
pub(crate) struct Nested {
    pub(crate) notes: Vec<Note>,
    pub(crate) marks: Vec<usize>,
}

// The word of an address.
fn word_of(addr: u64) -> u64
    ensures { result ≡ word_at addr }
{
    addr - addr % 8
}

impl Nested {
    /// No block is open.
    pub(crate) fn new(alloc: Global) -> Nested
        ensures notes { result.notes.items ≡ [] }
        ensures marks { result.marks.items ≡ [] }
    {
        Nested {
            notes: Vec::new(alloc),
            marks: Vec::new(alloc),
        }
    }

    /// Whether no block is open.
    pub(crate) fn is_empty(&self) -> bool
        ensures { result ≡ (length self.now.marks.items == 0) }
    {
        self.marks.is_empty()
    }

    /// Whether a block is open.
    pub(crate) fn is_open(&self) -> bool
        ensures open { result ≡ true → self.now.marks.items ≢ [] }
        ensures shut { result ≡ false → self.now.marks.items ≡ [] }
    {
        let none = self.is_empty();
        !none
    }

    /// A block begins.
    pub(crate) fn begin(&mut self) -> Result<(), AllocError>
        ensures notes { OnOk result (self.new.notes.items ≡ self.old.notes.items) }
        ensures marks { OnOk result (self.new.marks.items ≡ self.old.marks.items ++ length self.old.notes.items ∷ []) }
    {
        let count = self.notes.len();
        self.marks.push(count)?;
        Ok(())
    }

    /// Stores: `false` exactly where the address is unmapped or misaligned.
    pub(crate) fn store(
        &mut self,
        memory: &mut Memory,
        addr: u64,
        size: u8,
        value: u64,
    ) -> Result<bool, AllocError>
        requires size { is_size size ≡ true }
        requires value { value < 2 ^ (8 * size) }
        ensures done { IfOk result (λ b. b ≡ can_access (layout_of memory.old) addr size) }
        ensures layout { layout_of memory.new ≡ layout_of memory.old }
        ensures words { IfOk result (λ b. b ≡ true → words_of memory.new ≡ stored (words_of memory.old) addr size value) }
        ensures notes { IfOk result (λ b. b ≡ true → self.new.notes.items ≡ self.old.notes.items ++ record { word = word_at addr; old = words_of memory.old (word_at addr) } ∷ []) }
        ensures kept { IfOk result (λ b. b ≡ false → self.new.notes.items ≡ self.old.notes.items) }
        ensures marks { IfOk result (λ b. self.new.marks.items ≡ self.old.marks.items) }
    {
        if memory.load(addr, size).is_none() {
            return Ok(false);
        }
        let word = word_of(addr);
        let Some(old) = memory.load(word, 8) else {
            unreachable!()
        };
        self.notes.push(Note { word, old })?;
        let _ = memory.store(addr, size, value);
        Ok(true)
    }

    /// The innermost block is left, and memory stays as it is.
    pub(crate) fn end(&mut self)
        ensures { self.old.marks.items ≢ [] → Ended self.old self.new }
    {
        let _ = self.marks.pop();
    }

    // Puts the newest note back.
    fn put_newest(&mut self, memory: &mut Memory)
        requires { are_words (layout_of memory.old) self.old.notes.items ≡ true }
        ensures layout { layout_of memory.new ≡ layout_of memory.old }
        ensures words { words_of memory.new ≡ undone self.old.notes.items (length self.old.notes.items - 1) (words_of memory.old) }
        ensures notes { self.new.notes.items ≡ take (length self.old.notes.items - 1) self.old.notes.items }
        ensures marks { self.new.marks.items ≡ self.old.marks.items }
    {
        if let Some(note) = self.notes.pop() {
            let _ = memory.store(note.word, 8, note.old);
        }
    }

    /// The innermost block is left, and memory goes back to where it began.
    pub(crate) fn cancel(&mut self, memory: &mut Memory)
        requires { IsNested (layout_of memory.old) self.old }
        ensures layout { layout_of memory.new ≡ layout_of memory.old }
        ensures cancelled { self.old.marks.items ≢ [] → Cancelled self.old self.new (words_of memory.old) (words_of memory.new) }
    {
        let Some(mark) = self.marks.pop() else {
            return;
        };
        let count = self.notes.len();
        for undone in mark..count {
            let _ = undone;
            self.put_newest(memory);
        }
    }
}

//! The log.
ghost use Rattle.std.specs.Prelude.{◌≡◌, ◌≤◌, ◌<◌, ℕ, length, slice_index};
ghost use Rattle.undo_log.specs.Index.{words_in, BeginsWith};
ghost use Rattle.undo_log.specs.Notes.{noted_words};

use crate::index::Index;
use crate::list::NoteList;
use crate::notes::{Note, move_marks, put_all_back, put_word_back};
use std::alloc::{AllocError, Global};
use tx_memory::Memory;

/// Notes of words, with one mark for each savepoint, and an index by word.
#[derive(Drop)]
pub struct Log {
    list: NoteList,
    marks: Vec<usize>,
    index: Index,
    ghost within: { (i : ℕ) → i < length marks.items → slice_index marks.items i ≤ length list.notes.items },
    ghost ascending: { (i j : ℕ) → i ≤ j → j < length marks.items → slice_index marks.items i ≤ slice_index marks.items j },
    ghost indexed: { BeginsWith (noted_words list.notes.items) (words_in index.entries.items) },
}

impl Log {
    ghost use Rattle.std.specs.Prelude.{◌==◌, ◌+◌, ◌++◌, ◌∷◌, [], ◌↔◌, true, take, drop, map, if◌then◌else◌, OnOk, IsNone, IfNone, IfSome, All};
    ghost use Rattle.tx_events.specs.Memory.{can_access};
    ghost use Rattle.tx_memory.specs.View.{layout_of, words_of};
    ghost use Rattle.undo_log.specs.Notes.{first_note, is_noted, put_back, word_back, others, can_put_back};
    ghost use Rattle.std.specs.List.Sorted.{IsPermutation};
    ghost use Rattle.undo_log.specs.View.{notes_of, marks_of, newest_start, newest_notes, HasCapacity};

    /// A log without notes and marks.
    pub fn new(alloc: Global) -> Log
        ensures notes { notes_of result ≡ [] }
        ensures marks { marks_of result ≡ [] }
    {
        Log {
            list: NoteList::new(alloc),
            marks: Vec::new(alloc),
            index: Index::new(alloc),
        }
    }

    /// Makes the room that the next call needs, if that is `mark`, or `note` of the word. Here the index gains the
    /// notes that it does not list, as those behind a note that was taken out.
    pub fn reserve(&mut self, _word: u64) -> Result<(), AllocError>
        ensures notes { notes_of self.new ≡ notes_of self.old }
        ensures marks { marks_of self.new ≡ marks_of self.old }
        ensures capacity { OnOk result (HasCapacity self.new) }
    {
        self.list.reserve()?;
        self.marks.reserve(1)?;
        self.index.catch_up(self.list.notes.as_slice())?;
        self.index.reserve()
    }

    /// Sets a savepoint, and answers its number.
    pub fn mark(&mut self) -> usize
        requires { HasCapacity self.old }
        ensures number { result ≡ length (marks_of self.old) }
        ensures notes { notes_of self.new ≡ notes_of self.old }
        ensures marks { marks_of self.new ≡ marks_of self.old ++ length (notes_of self.old) ∷ [] }
    {
        let number = self.marks.len();
        let _ = self.marks.push(self.list.len());
        number
    }

    /// Notes what the word holds, where the newest mark does not note it.
    pub fn note(&mut self, word: u64, old: u64)
        requires capacity { HasCapacity self.old }
        requires mark { 0 < length (marks_of self.old) }
        ensures notes { notes_of self.new ≡ (if is_noted (newest_notes self.old) word
            then notes_of self.old else notes_of self.old ++ record { word = word; old = old } ∷ []) }
        ensures marks { marks_of self.new ≡ marks_of self.old }
    {
        let start = self.start();
        if !self.index.has_since(start, word) {
            let is_again = self.index.has_since(self.list.distinct, word);
            self.list.push(Note { word, old }, start, is_again);
            self.index.push(word);
        }
    }

    /// Drops the newest mark, and keeps its notes for the mark below.
    pub fn drop_mark(&mut self, mark: usize)
        requires { mark + 1 ≡ length (marks_of self.old) }
        ensures notes { notes_of self.new ≡ notes_of self.old }
        ensures marks { marks_of self.new ≡ take mark (marks_of self.old) }
    {
        self.marks.truncate(mark);
    }

    /// Gives each word noted since the mark what its first note since it has, and cuts the list there. The mark stays,
    /// without notes, and newer marks are gone.
    pub fn back_to(&mut self, memory: &mut Memory, mark: usize)
        requires mark { mark < length (marks_of self.old) }
        requires words { can_put_back (layout_of memory.old)
            (drop (slice_index (marks_of self.old) mark) (notes_of self.old)) ≡ true }
        ensures layout { layout_of memory.new ≡ layout_of memory.old }
        ensures words { words_of memory.new
            ≡ put_back (drop (slice_index (marks_of self.old) mark) (notes_of self.old)) (words_of memory.old) }
        ensures notes { notes_of self.new ≡ take (slice_index (marks_of self.old) mark) (notes_of self.old) }
        ensures marks { marks_of self.new ≡ take (mark + 1) (marks_of self.old) }
    {
        let start = self.marks[mark];
        put_all_back(memory, &self.list.notes[start..]);
        self.list.truncate(start);
        self.index.truncate(start);
        self.marks.truncate(mark + 1);
    }

    /// Forgets all notes and marks.
    pub fn clear(&mut self)
        ensures notes { notes_of self.new ≡ [] }
        ensures marks { marks_of self.new ≡ [] }
    {
        self.marks.clear();
        self.list.clear();
        self.index.clear();
    }

    /// Goes back to one mark and no notes, as a new log is after its first `mark`.
    pub fn start_over(&mut self)
        requires { 0 < length (marks_of self.old) }
        ensures notes { notes_of self.new ≡ [] }
        ensures marks { marks_of self.new ≡ 0 ∷ [] }
    {
        self.marks.truncate(1);
        self.marks[0] = 0;
        self.list.clear();
        self.index.clear();
    }

    /// Puts the notes of the newest mark in order of their words, the greatest first, where it is known that they note no
    /// word twice; else it changes nothing. The words under the mark can then be undone without a search.
    pub fn order_newest(&mut self)
        ensures marks { marks_of self.new ≡ marks_of self.old }
        ensures older { take (newest_start (marks_of self.old)) (notes_of self.new)
            ≡ take (newest_start (marks_of self.old)) (notes_of self.old) }
        ensures newest { IsPermutation (newest_notes self.old) (newest_notes self.new) }
        ensures first { (word : ℕ) → first_note (newest_notes self.new) word ≡ first_note (newest_notes self.old) word }
    {
        let start = self.start();
        let _moved = self.list.sort(start);
        self.index.truncate(start);
    }

    /// All notes, the oldest first.
    pub fn notes(&self) -> &[Note]
        ensures { result.now ≡ notes_of self.now }
    {
        self.list.notes.as_slice()
    }

    /// For each mark the position at which its notes begin, the oldest mark first.
    pub fn marks(&self) -> &[usize]
        ensures { result.now ≡ marks_of self.now }
    {
        self.marks.as_slice()
    }

    /// Gives the least word that the newest mark notes what its first note under that mark has, drops its notes under
    /// that mark and answers it: `None` exactly where the newest mark notes none.
    pub fn undo_newest(&mut self, memory: &mut Memory) -> Option<u64>
        requires mark { 0 < length (marks_of self.old) }
        requires words { can_put_back (layout_of memory.old) (newest_notes self.old) ≡ true }
        ensures none { IsNone result ↔ (length (newest_notes self.old) ≡ 0) }
        ensures noted { IfSome result (λ w. is_noted (newest_notes self.old) w ≡ true) }
        ensures least { IfSome result (λ w. All (λ n. w ≤ n.word) (newest_notes self.old)) }
        ensures layout { layout_of memory.new ≡ layout_of memory.old }
        ensures words { IfSome result (λ w. words_of memory.new
            ≡ word_back (first_note (newest_notes self.old) w) w (words_of memory.old)) }
        ensures notes { IfSome result (λ w. notes_of self.new
            ≡ take (newest_start (marks_of self.old)) (notes_of self.old) ++ others w (newest_notes self.old)) }
        ensures marks { marks_of self.new ≡ marks_of self.old }
        ensures same_words { IfNone result (words_of memory.new ≡ words_of memory.old) }
        ensures same_notes { IfNone result (notes_of self.new ≡ notes_of self.old) }
    {
        let start = self.start();
        let word = self.list.least_since(start)?;
        put_word_back(memory, self.list.first_since(start, word), word);
        let kept = self.list.remove(start, word);
        self.index.truncate(kept);
        Some(word)
    }

    /// Gives the word what its oldest note has and drops its notes. Where the word has no note, nothing changes.
    pub fn undo_word(&mut self, memory: &mut Memory, word: u64)
        requires { can_access (layout_of memory.old) word 8 ≡ true }
        ensures layout { layout_of memory.new ≡ layout_of memory.old }
        ensures words { words_of memory.new ≡ word_back (first_note (notes_of self.old) word) word (words_of memory.old) }
        ensures notes { notes_of self.new ≡ others word (notes_of self.old) }
        ensures marks { marks_of self.new
            ≡ map (λ m. length (others word (take m (notes_of self.old)))) (marks_of self.old) }
    {
        if self.list.is_above(word) {
            return;
        }
        put_word_back(memory, self.list.first_since(0, word), word);
        self.move_marks(word);
        let kept = self.list.remove(0, word);
        self.index.truncate(kept);
    }

    /// Moves the marks to where their notes begin once the word's notes are gone.
    fn move_marks(&mut self, word: u64)
        ensures notes { notes_of self.new ≡ notes_of self.old }
        ensures marks { marks_of self.new
            ≡ map (λ m. length (others word (take m (notes_of self.old)))) (marks_of self.old) }
    {
        if self.marks_stay(word) {
            return;
        }
        move_marks(&mut self.marks, self.list.notes.as_slice(), word);
    }

    /// Whether it is known that no mark moves once the word's notes are gone.
    fn marks_stay(&self, word: u64) -> bool
        ensures { result ≡ true → marks_of self.now
            ≡ map (λ m. length (others word (take m (notes_of self.now)))) (marks_of self.now) }
    {
        if !self.list.ends_in(0, word) {
            return false;
        }
        self.start() < self.list.len()
    }

    /// Where the notes of the newest mark begin.
    fn start(&self) -> usize
        ensures value { result ≡ newest_start (marks_of self.now) }
        ensures within { result ≤ length (notes_of self.now) }
    {
        match self.marks.last() {
            Some(start) => *start,
            None => 0,
        }
    }
}

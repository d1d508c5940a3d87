//! The notes of a log, and what is known of their order.
ghost use Rattle.std.specs.Prelude.{◌≡◌, ◌≤◌, ◌<◌, ℕ, drop};
ghost use Rattle.undo_log.specs.Order.{times_noted, IsDescending};

use crate::notes::{Note, first_old, last_word, least_word, remove_each, sort_from};
use std::alloc::{AllocError, Global};

/// Notes of words, the oldest first but for those that were put in order.
#[derive(Drop)]
pub(crate) struct NoteList {
    pub(crate) notes: Vec<Note>,
    /// From here on no word is noted twice.
    pub(crate) distinct: usize,
    /// From here on the notes are in order of their words, the greatest first.
    sorted: usize,
    ghost once: { (w : ℕ) → times_noted (drop distinct notes.items) w ≤ 1 },
    ghost descending: { IsDescending (drop sorted notes.items) },
}

impl NoteList {
    ghost use Rattle.std.specs.Prelude.{◌==◌, ◌+◌, ◌-◌, ◌++◌, ◌∷◌, ◌↔◌, [], true, false, take, length, OnOk, IsNone, IfSome, All, vec_len, vec_capacity};
    ghost use Rattle.std.specs.List.Sorted.{IsPermutation};
    ghost use Rattle.undo_log.specs.Notes.{first_note, is_noted, others};
    ghost use Rattle.undo_log.specs.Order.{EndsIn};

    pub(crate) fn new(alloc: Global) -> NoteList
        ensures { result.notes.items ≡ [] }
    {
        NoteList {
            notes: Vec::new(alloc),
            distinct: 0,
            sorted: 0,
        }
    }

    /// How many notes there are.
    pub(crate) fn len(&self) -> usize
        ensures { result ≡ length self.now.notes.items }
    {
        self.notes.len()
    }

    /// Makes room for one note more.
    pub(crate) fn reserve(&mut self) -> Result<(), AllocError>
        ensures same { self.new.notes.items ≡ self.old.notes.items }
        ensures capacity { OnOk result (vec_len self.new.notes < vec_capacity self.new.notes) }
    {
        self.notes.reserve(1)
    }

    /// Adds a note of a word that is not noted since `start`; `is_again` tells whether it is noted since `distinct`.
    pub(crate) fn push(&mut self, note: Note, start: usize, is_again: bool)
        requires capacity { vec_len self.old.notes < vec_capacity self.old.notes }
        requires fresh { is_noted (drop start self.old.notes.items) note.word ≡ false }
        requires again { is_again ≡ is_noted (drop self.old.distinct self.old.notes.items) note.word }
        ensures { self.new.notes.items ≡ self.old.notes.items ++ note ∷ [] }
    {
        let _ = self.notes.push(note);
        self.sorted = self.notes.len();
        if is_again {
            self.distinct = start;
        }
    }

    /// Keeps the first `count` notes.
    pub(crate) fn truncate(&mut self, count: usize)
        ensures { self.new.notes.items ≡ take count self.old.notes.items }
    {
        self.notes.truncate(count);
        self.distinct = count;
        self.sorted = count;
    }

    /// Takes out all notes.
    pub(crate) fn clear(&mut self)
        ensures { self.new.notes.items ≡ [] }
    {
        self.notes.clear();
        self.distinct = 0;
        self.sorted = 0;
    }

    /// Puts the notes since `start` in order of their words, the greatest first, and answers whether it moved any. It does
    /// so only where they are known to be of a word each, and not known to be in order.
    pub(crate) fn sort(&mut self, start: usize) -> bool
        requires { start ≤ length self.old.notes.items }
        ensures older { take start self.new.notes.items ≡ take start self.old.notes.items }
        ensures newer { IsPermutation (drop start self.old.notes.items) (drop start self.new.notes.items) }
        ensures first { (w : ℕ) → first_note (drop start self.new.notes.items) w ≡ first_note (drop start self.old.notes.items) w }
        ensures len { length self.new.notes.items ≡ length self.old.notes.items }
        ensures same { result ≡ false → self.new.notes.items ≡ self.old.notes.items }
    {
        if self.sorted <= start || self.distinct > start {
            return false;
        }
        sort_from(&mut self.notes, start);
        self.distinct = start;
        self.sorted = start;
        true
    }

    /// The least word that is noted since `start`.
    pub(crate) fn least_since(&self, start: usize) -> Option<u64>
        requires { start ≤ length self.now.notes.items }
        ensures none { IsNone result ↔ (length (drop start self.now.notes.items) ≡ 0) }
        ensures noted { IfSome result (λ w. is_noted (drop start self.now.notes.items) w ≡ true) }
        ensures least { IfSome result (λ w. All (λ n. w ≤ n.word) (drop start self.now.notes.items)) }
    {
        if self.sorted <= start {
            last_word(&self.notes[start..])
        } else {
            least_word(&self.notes[start..])
        }
    }

    /// What the first note of the word since `start` has.
    pub(crate) fn first_since(&self, start: usize, word: u64) -> Option<u64>
        requires { start ≤ length self.now.notes.items }
        ensures { result ≡ first_note (drop start self.now.notes.items) word }
    {
        if self.ends_in(start, word) {
            match self.notes.last() {
                Some(note) => Some(note.old),
                None => None,
            }
        } else {
            first_old(&self.notes[start..], word)
        }
    }

    /// Whether the last note is known to be the only one of the word since `start`.
    pub(crate) fn ends_in(&self, start: usize, word: u64) -> bool
        requires { start ≤ length self.now.notes.items }
        ensures { result ≡ true → EndsIn start word self.now.notes.items }
    {
        if self.distinct > start || self.notes.len() <= start {
            return false;
        }
        match self.notes.last() {
            Some(last) => last.word == word,
            None => false,
        }
    }

    /// Whether each note is known to be of a greater word.
    pub(crate) fn is_above(&self, word: u64) -> bool
        ensures { result ≡ true → is_noted self.now.notes.items word ≡ false }
    {
        if self.sorted > 0 {
            return false;
        }
        match self.notes.last() {
            Some(last) => word < last.word,
            None => true,
        }
    }

    /// Takes out the word's notes since `start`, and answers how many notes from the first on are as they were.
    pub(crate) fn remove(&mut self, start: usize, word: u64) -> usize
        requires { start ≤ length self.old.notes.items }
        ensures removed { self.new.notes.items ≡ take start self.old.notes.items ++ others word (drop start self.old.notes.items) }
        ensures kept { take result self.new.notes.items ≡ take result self.old.notes.items }
    {
        if self.ends_in(start, word) {
            let _ = self.notes.pop();
            return self.notes.len();
        }
        remove_each(&mut self.notes, start, word);
        self.distinct = self.notes.len();
        self.sorted = self.notes.len();
        start
    }
}

//! A list of words that tells where each word stands last, by a hash map from each word to that position. Each entry keeps
//! the position of its word before it, so that the list can be cut back.
ghost use Rattle.std.specs.Prelude.{◌≡◌, ℕ};
ghost use Rattle.std.specs.Bool.{nat_eq};
ghost use Rattle.std.specs.HashMap.{get};
ghost use Rattle.undo_log.specs.Index.{last_position, words_in, IsLinked};

use crate::notes::Note;
use std::alloc::{AllocError, Global};
use std::collections::HashMap;

/// Below one word in so many that there is room for, an index is cleared word by word, else as a whole.
const FEW: usize = 128;

/// A word of the list.
#[derive(Clone, Copy)]
pub(crate) struct Entry {
    /// The address of the word.
    word: u64,
    /// The position of the last entry before this one that has the word.
    before: Option<usize>,
}

/// A list of words, and for each word the position of its last occurrence.
#[derive(Drop)]
pub(crate) struct Index {
    entries: Vec<Entry>,
    newest: HashMap<u64, usize>,
    ghost positions: { (word : ℕ) → get nat_eq newest word ≡ last_position (words_in entries.items) word },
    ghost linked: { IsLinked entries.items },
}

impl Index {
    ghost use Rattle.std.specs.Prelude.{◌==◌, ◌+◌, ◌-◌, ◌<◌, ◌++◌, ◌∷◌, [], length, take, drop, OnOk};
    ghost use Rattle.std.specs.List.{list_any};
    ghost use Rattle.undo_log.specs.Index.{BeginsWith};
    ghost use Rattle.undo_log.specs.IndexView.{words_listed, CanAdd};
    ghost use Rattle.undo_log.specs.Notes.{noted_words};

    /// An index of no words.
    pub(crate) fn new(alloc: Global) -> Index
        ensures { words_listed result ≡ [] }
    {
        Index {
            entries: Vec::new(alloc),
            newest: HashMap::new(alloc),
        }
    }

    /// How many words there are.
    pub(crate) fn len(&self) -> usize
        ensures { result ≡ length (words_listed self.now) }
    {
        self.entries.len()
    }

    /// Makes room for one word more.
    pub(crate) fn reserve(&mut self) -> Result<(), AllocError>
        ensures words { words_listed self.new ≡ words_listed self.old }
        ensures capacity { OnOk result (CanAdd self.new) }
    {
        self.entries.reserve(1)?;
        self.newest.reserve(1)
    }

    /// Adds the word at the end.
    pub(crate) fn push(&mut self, word: u64)
        requires { CanAdd self.old }
        ensures { words_listed self.new ≡ words_listed self.old ++ word ∷ [] }
    {
        let position = self.len();
        let before = match self.newest.insert(word, position) {
            Ok(before) => before,
            Err(_) => unreachable!(),
        };
        let _ = self.entries.push(Entry { word, before });
    }

    /// Adds the words of the notes behind those that are there.
    pub(crate) fn catch_up(&mut self, notes: &[Note]) -> Result<(), AllocError>
        requires { BeginsWith (noted_words notes.now) (words_listed self.old) }
        ensures words { BeginsWith (noted_words notes.now) (words_listed self.new) }
        ensures all { OnOk result (length (words_listed self.new) ≡ length notes.now) }
    {
        while self.len() < notes.len() {
            self.reserve()?;
            self.push(notes[self.len()].word);
        }
        Ok(())
    }

    /// Whether the word stands at `start` or behind it.
    pub(crate) fn has_since(&self, start: usize, word: u64) -> bool
        ensures { result ≡ list_any (λ w. w == word) (drop start (words_listed self.now)) }
    {
        match self.newest.get(&word) {
            Some(position) => *position >= start,
            None => false,
        }
    }

    /// Keeps the first `count` words.
    pub(crate) fn truncate(&mut self, count: usize)
        ensures { words_listed self.new ≡ take count (words_listed self.old) }
    {
        while self.len() > count {
            self.pop();
        }
    }

    /// Takes out all words.
    pub(crate) fn clear(&mut self)
        ensures { words_listed self.new ≡ [] }
    {
        if self.len() <= self.newest.capacity() / FEW {
            self.truncate(0);
        } else {
            self.clear_whole();
        }
    }

    /// Takes out all words at once.
    fn clear_whole(&mut self)
        ensures { words_listed self.new ≡ [] }
    {
        self.newest.clear();
        self.entries.clear();
    }

    /// Takes out the last word.
    fn pop(&mut self)
        ensures { words_listed self.new ≡ take (length (words_listed self.old) - 1) (words_listed self.old) }
    {
        if let Some(entry) = self.entries.pop() {
            match entry.before {
                Some(position) => {
                    // The word is there, so no memory is taken.
                    let _ = self.newest.insert(entry.word, position);
                }
                None => {
                    let _ = self.newest.remove(&entry.word);
                }
            }
        }
    }
}

//! The records of the words of one stripe.
ghost use Rattle.std.specs.Prelude.{◌≡◌, ◌==◌, ◌<◌, ◌≤◌, [], true, ℕ, Bool, Some, None, if◌then◌else◌, IfSome, IsNone, OnOk, vec_len, vec_capacity};
ghost use Rattle.std.specs.List.{list_all, position};
ghost use Rattle.own_table.specs.Records.{is_sound, mode_in, mode_of, record_of, records_of, writer_reads};
ghost use Rattle.own_table.specs.declared.hold.HoldRec.{HoldRec};

use crate::hold::HoldRec;
use std::alloc::{AllocError, Global};

/// A short list of records, at most one for each word.
#[derive(Drop)]
pub(crate) struct Stripe {
    pub(crate) records: Vec<HoldRec>,
    ghost sound: { list_all is_sound records.items ≡ true },
    ghost once: { (w : ℕ) → records_of records.items w ≤ 1 },
}

impl Stripe {
    pub(crate) fn new(alloc: Global) -> Stripe
        ensures { result.records.items ≡ [] }
    {
        Stripe {
            records: Vec::new(alloc),
        }
    }

    /// The record of the word.
    pub(crate) fn find(&self, word: u64) -> Option<HoldRec>
        ensures value { result ≡ record_of self.now.records.items word }
        ensures sound { IfSome result (λ r. is_sound r ≡ true) }
        ensures word { IfSome result (λ r. r.word ≡ word) }
    {
        self.records.iter().copied().find(|r| r.word == word)
    }

    /// The index of the record of the word.
    pub(crate) fn index_of(&self, word: u64) -> Option<usize>
        ensures { result ≡ position (λ r. r.word == word) self.now.records.items }
    {
        self.records.iter().position(|r| r.word == word)
    }

    /// The record of the word, or the record of a word that no thread holds, by the index of its record.
    pub(crate) fn holds_at(&self, index: Option<usize>, word: u64) -> HoldRec
        requires { index ≡ position (λ r. r.word == word) self.now.records.items }
        ensures word { result.word ≡ word }
        ensures reads { writer_reads result ≡ true }
        ensures modes { (u : ℕ) → mode_of result u ≡ mode_in (record_of self.now.records.items word) u }
    {
        match index {
            Some(at) => self.records[at],
            None => HoldRec::free(word),
        }
    }

    /// Makes room for one record more.
    pub(crate) fn reserve(&mut self) -> Result<(), AllocError>
        ensures same { self.new.records.items ≡ self.old.records.items }
        ensures capacity { OnOk result (vec_len self.new.records < vec_capacity self.new.records) }
    {
        self.records.reserve(1)
    }

    /// Puts the record at the index of its word's record, or beside the others where there is none.
    pub(crate) fn put_at(&mut self, index: Option<usize>, holds: HoldRec)
        requires index { index ≡ position (λ r. r.word == holds.word) self.old.records.items }
        requires sound { is_sound holds ≡ true }
        requires capacity { IsNone index → vec_len self.old.records < vec_capacity self.old.records }
        ensures found { (w : ℕ) → record_of self.new.records.items w
            ≡ (if holds.word == w then Some holds else record_of self.old.records.items w) }
        ensures kept { (p : HoldRec → Bool) → list_all p self.old.records.items ≡ true → p holds ≡ true
            → list_all p self.new.records.items ≡ true }
    {
        match index {
            Some(at) => self.records[at] = holds,
            None => {
                let _ = self.records.push(holds);
            }
        }
    }

    /// Takes out the record of the word, which stands at this index.
    pub(crate) fn remove_at(&mut self, index: usize, word: u64)
        requires { position (λ r. r.word == word) self.old.records.items ≡ Some index }
        ensures found { (w : ℕ) → record_of self.new.records.items w
            ≡ (if word == w then None else record_of self.old.records.items w) }
        ensures kept { (p : HoldRec → Bool) → list_all p self.old.records.items ≡ true
            → list_all p self.new.records.items ≡ true }
    {
        let _taken = self.records.remove(index);
    }
}

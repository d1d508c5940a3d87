//! The table of all holds.
ghost use Rattle.own_table.specs.Stripes.{IsTable};
ghost use Rattle.std.proofs.Props.{props};
ghost use Rattle.tx_events.specs.declared.TheConstants.{THREAD_LIMIT};

use crate::bits::without;
use crate::held::HeldWords;
use crate::hold::{HoldRec, Mode};
use crate::stripe::Stripe;
use crate::stripes::{free_stripes, release_record, reserve_record, stripe_index, take_record};
use crate::words::{no_words, reserve_words};
use std::alloc::{AllocError, Global};

/// The words that each thread's list is given room for at once.
const SPARE_WORDS: usize = 64;

/// Which thread holds which word, for reading or for writing.
#[derive(Drop)]
pub struct Holders {
    stripes: Vec<Stripe>,
    held: Vec<HeldWords>,
    /// How many words more each thread's list has room for.
    spare: usize,
    ghost table: { IsTable stripes.items held.items spare } by { Prim.hlevel props },
}

impl Holders {
    ghost use Rattle.std.specs.Prelude.{◌≡◌, ◌==◌, ◌≢◌, ◌<◌, ◌≤◌, ◌&&◌, ◌↔◌, not, true, false, ℕ, Some, None, if◌then◌else◌, IfOk, OnOk, IfNone, IfSome, IsSome, is_some, All};
    ghost use Rattle.own_table.specs.declared.TheConstants.{STRIPES};
    ghost use Rattle.own_table.specs.Bits.{has_bit};
    ghost use Rattle.own_table.specs.Records.{blocks, is_write, is_sound, raised, record_of, records_of, stripe_of};
    ghost use Rattle.own_table.specs.Stripes.{records_at};
    ghost use Rattle.own_table.specs.Table.{hold_of, thread_limit, HasCapacity};

    /// A table for threads with numbers below `threads`, of which none holds a word.
    pub fn new(alloc: Global, threads: u8) -> Result<Holders, AllocError>
        requires some { 0 < threads }
        requires limit { threads ≤ THREAD_LIMIT }
        ensures free { IfOk result (λ h. (t w : ℕ) → hold_of h t w ≡ None) }
        ensures limit { IfOk result (λ h. thread_limit h ≡ threads) }
    {
        let stripes = free_stripes(alloc)?;
        let held = no_words(alloc, threads)?;
        Ok(Holders {
            stripes,
            held,
            spare: 0,
        })
    }

    /// The threads that block an access of thread `t` to the word, a store or a load: bit `u` is set exactly where
    /// thread `u` is not `t` and holds the word for writing, or holds it and the access is a store.
    pub fn blockers(&self, word: u64, t: u8, store: bool) -> u64
        requires { t < thread_limit self.now }
        ensures { (u : ℕ) → has_bit result u ≡ (blocks (hold_of self.now u word) store && not (u == t)) }
    {
        let Some(holds) = self.record(word) else {
            return 0;
        };
        let threads = if store {
            holds.readers
        } else {
            holds.writer_set()
        };
        without(threads, t)
    }

    /// How the thread holds the word: `None` exactly where it does not.
    pub fn holds(&self, word: u64, t: u8) -> Option<Mode>
        requires { t < thread_limit self.now }
        ensures { result ≡ hold_of self.now t word }
    {
        let holds = self.record(word)?;
        holds.mode_of(t)
    }

    /// How many words the thread holds.
    pub fn count(&self, t: u8) -> usize
        requires { t < thread_limit self.now }
        ensures none { result ≡ 0 → (w : ℕ) → hold_of self.now t w ≡ None }
        ensures one { result ≡ 1 → (w : ℕ) × (IsSome (hold_of self.now t w) × ((v : ℕ) → IsSome (hold_of self.now t v) → v ≡ w)) }
        ensures some { 0 < result → (w : ℕ) × IsSome (hold_of self.now t w) }
        ensures more { 1 < result → (v w : ℕ) × (v ≢ w × IsSome (hold_of self.now t v) × IsSome (hold_of self.now t w)) }
    {
        let words = &self.held[t as usize];
        words.len()
    }

    /// Makes room for the next `take` of the word.
    pub fn reserve(&mut self, word: u64) -> Result<(), AllocError>
        ensures same { (t w : ℕ) → hold_of self.new t w ≡ hold_of self.old t w }
        ensures limit { thread_limit self.new ≡ thread_limit self.old }
        ensures capacity { OnOk result (HasCapacity self.new word) }
    {
        reserve_record(&mut self.stripes, word)?;
        if self.spare > 0 {
            return Ok(());
        }
        reserve_words(&mut self.held, SPARE_WORDS)?;
        self.spare = SPARE_WORDS;
        Ok(())
    }

    /// Adds a hold. Where the thread holds the word for reading, that hold is raised in place; holding for writing is
    /// holding for reading too.
    pub fn take(&mut self, word: u64, t: u8, mode: Mode)
        requires thread { t < thread_limit self.old }
        requires capacity { HasCapacity self.old word }
        requires unblocked { (u : ℕ) → u ≢ t → blocks (hold_of self.old u word) (is_write mode) ≡ false }
        ensures taken { (u w : ℕ) → hold_of self.new u w
            ≡ (if u == t && word == w then raised (hold_of self.old t word) mode else hold_of self.old u w) }
        ensures limit { thread_limit self.new ≡ thread_limit self.old }
    {
        let is_new = take_record(&mut self.stripes, word, t, mode);
        if is_new {
            self.spare -= 1;
            let words = &mut self.held[t as usize];
            words.add(word);
        }
    }

    /// The records of one stripe: those of the words held by some thread whose address, divided by 8, is `s` modulo
    /// `STRIPES`.
    pub fn stripe(&self, s: u16) -> &[HoldRec]
        requires { s < STRIPES }
        ensures once { (w : ℕ) → records_of result.now w ≤ 1 }
        ensures there { (w : ℕ) → IsSome (record_of result.now w)
            ↔ ((stripe_of w ≡ s) × ((t : ℕ) × IsSome (hold_of self.now t w))) }
        ensures readers { All (λ r. (u : ℕ) → has_bit r.readers u ≡ is_some (hold_of self.now u r.word)) result.now }
        ensures writer { All (λ r. (u : ℕ) → (r.writer ≡ Some u) ↔ (hold_of self.now u r.word ≡ Some Mode.Write)) result.now }
    {
        let stripe = &self.stripes[s as usize];
        stripe.records.as_slice()
    }

    /// Releases the least word that the thread holds: `None` exactly where it holds none.
    pub fn release_one(&mut self, t: u8) -> Option<u64>
        requires { t < thread_limit self.old }
        ensures none { IfNone result ((w : ℕ) → hold_of self.old t w ≡ None) }
        ensures same { IfNone result ((u w : ℕ) → hold_of self.new u w ≡ hold_of self.old u w) }
        ensures held { IfSome result (λ word. IsSome (hold_of self.old t word)) }
        ensures least { IfSome result (λ word. (w : ℕ) → w < word → hold_of self.old t w ≡ None) }
        ensures released { IfSome result (λ word. (u w : ℕ) → hold_of self.new u w
            ≡ (if u == t && word == w then None else hold_of self.old u w)) }
        ensures limit { thread_limit self.new ≡ thread_limit self.old }
    {
        let words = &mut self.held[t as usize];
        let word = words.take_least()?;
        release_record(&mut self.stripes, word, t);
        Some(word)
    }

    /// The record of the word.
    fn record(&self, word: u64) -> Option<HoldRec>
        ensures value { result ≡ record_of (records_at self.now.stripes.items (stripe_of word)) word }
        ensures sound { IfSome result (λ r. is_sound r ≡ true) }
        ensures word { IfSome result (λ r. r.word ≡ word) }
    {
        let stripe = &self.stripes[stripe_index(word)];
        stripe.find(word)
    }
}

//! How a thread holds a word, and the record of all holds of one word.
ghost use Rattle.tx_events.specs.declared.TheConstants.{THREAD_LIMIT};
ghost use Rattle.std.specs.Prelude.{◌≡◌, ◌==◌, ◌<◌, ◌≢◌, ◌&&◌, not, true, false, ℕ, if◌then◌else◌, None};
ghost use Rattle.own_table.specs.Records.{mode_of, writer_reads, is_write, blocks, raised, is_free, is_writer};
ghost use Rattle.own_table.specs.Bits.{has_bit};

use crate::bits::{bit_of, is_in, with, without};

/// How a thread holds a word. Holding for writing is holding for reading too.
#[derive(Clone, Copy, PartialEq, Eq, Debug)]
pub enum Mode {
    Read,
    Write,
}

impl Mode {
    /// Whether this is a hold for writing.
    pub fn is_write(self) -> bool
        ensures { result ≡ is_write self }
    {
        match self {
            Mode::Read => false,
            Mode::Write => true,
        }
    }
}

/// The holds of one word.
#[derive(Clone, Copy, PartialEq, Eq, Debug)]
pub struct HoldRec {
    /// The address of the word.
    pub word: u64,
    /// Bit `u` is set where thread `u` holds the word, in either mode.
    pub readers: u64,
    /// The thread that holds the word for writing.
    pub writer: Option<u8>,
}

impl HoldRec {
    /// The record of a word that no thread holds.
    pub(crate) fn free(word: u64) -> HoldRec
        ensures word { result.word ≡ word }
        ensures reads { writer_reads result ≡ true }
        ensures free { (u : ℕ) → mode_of result u ≡ None }
    {
        HoldRec {
            word,
            readers: 0,
            writer: None,
        }
    }

    /// Whether no thread holds the word.
    pub(crate) fn is_free(&self) -> bool
        ensures { result ≡ is_free self.now }
    {
        self.readers == 0
    }

    /// Whether the thread holds the word for writing.
    pub(crate) fn writes(&self, t: u8) -> bool
        ensures { result ≡ is_writer self.now.writer t }
    {
        self.writer == Some(t)
    }

    /// The set of the thread that holds the word for writing, or of none.
    pub(crate) fn writer_set(&self) -> u64
        requires { writer_reads self.now ≡ true }
        ensures { (u : ℕ) → has_bit result u ≡ is_writer self.now.writer u }
    {
        match self.writer {
            Some(t) => bit_of(t),
            None => 0,
        }
    }

    /// How the thread holds the word.
    pub(crate) fn mode_of(&self, t: u8) -> Option<Mode>
        requires { t < THREAD_LIMIT }
        ensures { result ≡ mode_of self.now t }
    {
        if self.writes(t) {
            Some(Mode::Write)
        } else if is_in(self.readers, t) {
            Some(Mode::Read)
        } else {
            None
        }
    }

    /// The record with one hold more. No other thread may hold the word in a mode that this one shuts out.
    pub(crate) fn with_hold(self, t: u8, mode: Mode) -> HoldRec
        requires thread { t < THREAD_LIMIT }
        requires reads { writer_reads self ≡ true }
        requires unblocked { (u : ℕ) → u ≢ t → blocks (mode_of self u) (is_write mode) ≡ false }
        ensures word { result.word ≡ self.word }
        ensures reads { writer_reads result ≡ true }
        ensures held { is_free result ≡ false }
        ensures modes { (u : ℕ) → mode_of result u
            ≡ (if u == t then raised (mode_of self t) mode else mode_of self u) }
    {
        let writer = match mode {
            Mode::Read => self.writer,
            Mode::Write => Some(t),
        };
        HoldRec {
            word: self.word,
            readers: with(self.readers, t),
            writer,
        }
    }

    /// The record without the thread's hold.
    pub(crate) fn without_hold(self, t: u8) -> HoldRec
        requires thread { t < THREAD_LIMIT }
        requires reads { writer_reads self ≡ true }
        ensures word { result.word ≡ self.word }
        ensures reads { writer_reads result ≡ true }
        ensures modes { (u : ℕ) → mode_of result u ≡ (if u == t then None else mode_of self u) }
    {
        let writer = if self.writes(t) { None } else { self.writer };
        HoldRec {
            word: self.word,
            readers: without(self.readers, t),
            writer,
        }
    }
}

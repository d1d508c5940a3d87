//! The mapped words.
ghost use Rattle.std.specs.Prelude.{◌≡◌, true, ◌+◌, ◌*◌, ◌/◌, ◌%◌, ◌<◌, ◌≤◌, length};
ghost use Rattle.tx_events.specs.Memory.{is_aligned};
ghost use Rattle.tx_events.specs.Thread.{is_size};
ghost use Rattle.tx_events.specs.declared.TheConstants.{THREAD_LIMIT, GLOBALS_LIMIT};

use crate::parts::{part, with_part};
use std::alloc::{AllocError, Global};
use tx_events::{GLOBALS_LIMIT, GLOBALS_START, GlobalCell, STACK_SIZE, STACK_STRIDE, STACKS_START};

/// The words of one stack.
const STACK_WORDS: usize = 8192;
/// The bytes of one word.
const WORD_SIZE: u64 = 8;

/// The globals and one stack for each thread number, in words of 8 bytes.
#[derive(Drop)]
pub struct Memory {
    words: Vec<u64>,
    globals: u32,
    threads: u8,
    ghost whole: { globals % 8 ≡ 0 },
    ghost globals_limit: { globals ≤ GLOBALS_LIMIT },
    ghost threads_limit: { threads ≤ THREAD_LIMIT },
    ghost covers: { length words.items ≡ globals / 8 + threads * 8192 },
}

impl Memory {
    ghost use Rattle.std.specs.Prelude.{◌==◌, ◌&&◌, ◌^◌, ℕ, nat_le, nat_lt, if◌then◌else◌, Some, None, IfOk};
    ghost use Rattle.std.specs.List.{list_all};
    ghost use Rattle.tx_events.specs.Memory.{can_access, load, store, update, no_bytes, with_cells};
    ghost use Rattle.tx_memory.specs.Words.{slot_of};
    ghost use Rattle.tx_memory.specs.View.{layout_of, words_of};
    ghost use Rattle.tx_memory.specs.Cells.{lies_within};

    /// A memory with `size` bytes of globals and `threads` stacks, in which all bytes outside of the cells are zero.
    pub fn new(
        alloc: Global,
        globals: &[GlobalCell],
        size: u32,
        threads: u8,
    ) -> Result<Memory, AllocError>
        requires whole { size % 8 ≡ 0 }
        requires size { size ≤ GLOBALS_LIMIT }
        requires cells { list_all (lies_within size) globals.now ≡ true }
        requires some { 0 < threads }
        requires threads { threads ≤ THREAD_LIMIT }
        ensures layout { IfOk result (λ m. layout_of m ≡ record { globals = size; limit = threads }) }
        ensures words { IfOk result (λ m. words_of m ≡ with_cells no_bytes globals.now) }
    {
        let words = vec![in alloc; 0u64; size as usize / 8 + threads as usize * STACK_WORDS]?;
        let mut memory = Memory {
            words,
            globals: size,
            threads,
        };
        for cell in globals {
            memory.store(
                GLOBALS_START + u64::from(cell.offset),
                cell.size,
                cell.value,
            );
        }
        Ok(memory)
    }

    /// The bytes of an access as a number, the least significant first: `None` exactly where the address is unmapped or
    /// misaligned.
    pub fn load(&self, addr: u64, size: u8) -> Option<u64>
        requires { is_size size ≡ true }
        ensures value { result ≡ (if can_access (layout_of self.now) addr size
            then Some (load (words_of self.now) addr size) else None) }
        ensures word { size ≡ 8 → can_access (layout_of self.now) addr size ≡ true
            → result ≡ Some (words_of self.now addr) }
    {
        let slot = self.slot(addr, size)?;
        Some(part(self.words[slot], shift_of(addr), bits_of(size)))
    }

    /// Writes the bytes of an access: `false` exactly where the address is unmapped or misaligned, and then nothing
    /// changes.
    pub fn store(&mut self, addr: u64, size: u8, value: u64) -> bool
        requires size { is_size size ≡ true }
        requires value { value < 2 ^ (8 * size) }
        ensures done { result ≡ can_access (layout_of self.old) addr size }
        ensures layout { layout_of self.new ≡ layout_of self.old }
        ensures words { words_of self.new ≡ (if can_access (layout_of self.old) addr size
            then store (words_of self.old) addr size value else words_of self.old) }
        ensures word { size ≡ 8 → can_access (layout_of self.old) addr size ≡ true
            → words_of self.new ≡ update (words_of self.old) addr value }
    {
        let Some(slot) = self.slot(addr, size) else {
            return false;
        };
        let word = self.words[slot];
        self.words[slot] = with_part(word, shift_of(addr), bits_of(size), value);
        true
    }

    /// An equal memory.
    pub fn copy(&self, alloc: Global) -> Result<Memory, AllocError>
        ensures layout { IfOk result (λ m. layout_of m ≡ layout_of self.now) }
        ensures words { IfOk result (λ m. words_of m ≡ words_of self.now) }
    {
        let words = Vec::from_slice(alloc, self.words.as_slice())?;
        Ok(Memory {
            words,
            globals: self.globals,
            threads: self.threads,
        })
    }

    /// Where the word of an access lies.
    fn slot(&self, addr: u64, size: u8) -> Option<usize>
        requires { is_size size ≡ true }
        ensures { result ≡ (if can_access (layout_of self.now) addr size
            then slot_of (layout_of self.now) addr else None) }
    {
        if is_aligned(addr, size) {
            self.mapped_slot(addr)
        } else {
            None
        }
    }

    /// Where the word that holds a byte lies.
    fn mapped_slot(&self, addr: u64) -> Option<usize>
        ensures { result ≡ slot_of (layout_of self.now) addr }
    {
        let globals = u64::from(self.globals);
        if GLOBALS_START <= addr && addr < GLOBALS_START + globals {
            return Some(((addr - GLOBALS_START) / WORD_SIZE) as usize);
        }
        if addr < STACKS_START {
            return None;
        }
        let thread = (addr - STACKS_START) / STACK_STRIDE;
        let offset = (addr - STACKS_START) % STACK_STRIDE;
        if thread < u64::from(self.threads) && offset < STACK_SIZE {
            let before = globals / WORD_SIZE + thread * (STACK_SIZE / WORD_SIZE);
            Some((before + offset / WORD_SIZE) as usize)
        } else {
            None
        }
    }
}

/// Whether the address is a multiple of the size. The sizes are told apart, so that no division is left.
fn is_aligned(addr: u64, size: u8) -> bool
    requires { is_size size ≡ true }
    ensures { result ≡ is_aligned addr size }
{
    if size == 8 {
        addr % 8 == 0
    } else if size == 4 {
        addr % 4 == 0
    } else if size == 2 {
        addr % 2 == 0
    } else {
        true
    }
}

/// Where in its word the bytes at the address begin, in bits.
fn shift_of(addr: u64) -> u32
    ensures { result ≡ 8 * (addr % 8) }
{
    8 * (addr % WORD_SIZE) as u32
}

/// The bits of an access.
fn bits_of(size: u8) -> u32
    ensures { result ≡ 8 * size }
{
    8 * u32::from(size)
}

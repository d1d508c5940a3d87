//! The frames of a thread and what they hold.
ghost use Rattle.std.specs.Prelude.{◌≡◌, true, reverse};
ghost use Rattle.vm_frames.specs.Frames.{are_nested};

use crate::parts::{Block, Exception, Frame, Held, Suspended};
use crate::stack::Stack;
use std::alloc::{AllocError, Global};

/// The frames of a thread with their operands, open blocks and exceptions of entered handlers.
#[derive(Drop)]
pub struct FrameStack {
    pub thread: u8,
    /// The innermost frame.
    pub top: Frame,
    /// The other frames, the outermost first.
    pub below: Vec<Suspended>,
    pub words: Stack<u64>,
    pub blocks: Stack<Block>,
    pub caught: Stack<Exception>,
    /// The exception that is unwinding the innermost frame.
    pub flight: Option<Exception>,
    pub ghost nested: { are_nested words.base blocks.base caught.base (reverse below.items) ≡ true },
}

impl FrameStack {
    ghost use Rattle.std.specs.Prelude.{ℕ, ◌+◌, ◌-◌, ◌<◌, ◌≤◌, ◌∷◌, [], drop, take, length, false, IfOk, OnOk, Some, None, if◌then◌else◌};
    ghost use Rattle.std.specs.Option.{option_map};
    ghost use Rattle.tx_code.specs.Meaning as meaning;
    ghost use Rattle.tx_code.specs.Meaning.{Runs, Unwinds, at, opening, closing, holding, handled, catching, cut, first_frame, on_with};
    ghost use Rattle.vm_frames.specs.Stacks.{put, swapped};
    ghost use Rattle.vm_frames.specs.Frames.{exception_of, frame_of, held_of, open_of, returned, left, is_outermost, words_in};
    ghost use Rattle.vm_frames.specs.FrameStacks.{top_of, rest_of, shown, CanTake};

    /// The first frame of a thread: a plain body, with this operand if there is one.
    pub fn start(
        alloc: Global,
        thread: u8,
        func: u32,
        address: u32,
        word: Option<u64>,
    ) -> Result<FrameStack, AllocError>
        ensures { IfOk result (λ s. shown s ≡ Runs (first_frame (record { thread = thread; func = func; safe = false; base = address }) (put word [])) []) }
    {
        let mut words = Stack::new(alloc);
        words.reserve(1)?;
        words.put(word);
        Ok(FrameStack {
            thread,
            top: Frame {
                func,
                safe: false,
                address,
                index: 0,
                held: Held::Free,
            },
            below: Vec::new(alloc),
            words,
            blocks: Stack::new(alloc),
            caught: Stack::new(alloc),
            flight: None,
        })
    }

    /// Makes room for what one instruction adds.
    pub fn ready(&mut self) -> Result<(), AllocError>
        ensures same { shown self.new ≡ shown self.old }
        ensures room { OnOk result (CanTake self.new) }
    {
        self.words.reserve(2)?;
        self.blocks.reserve(1)?;
        self.caught.reserve(1)?;
        self.below.reserve(1)
    }

    /// The same frames once more.
    pub fn copy(&self, alloc: Global) -> Result<FrameStack, AllocError>
        ensures { IfOk result (λ s. shown s ≡ shown self.now) }
    {
        let below = Vec::from_slice(alloc, &self.below)?;
        let words = self.words.copy(alloc)?;
        let blocks = self.blocks.copy(alloc)?;
        let caught = self.caught.copy(alloc)?;
        Ok(FrameStack {
            thread: self.thread,
            top: self.top,
            below,
            words,
            blocks,
            caught,
            flight: self.flight,
        })
    }

    /// Whether no frame lies below.
    pub fn is_outermost(&self) -> bool
        ensures { result ≡ is_outermost (rest_of self.now) }
    {
        self.below.is_empty()
    }

    /// The exception of the handler that was entered last and not left.
    pub fn current(&self) -> Option<Exception>
        ensures { option_map exception_of result ≡ meaning.current (top_of self.now ∷ rest_of self.now) }
    {
        self.caught.last()
    }

    /// The operands of all frames, the outermost frame first and each frame's from the bottom up.
    pub fn all_words(&self) -> &[u64]
        ensures { result.now ≡ words_in (top_of self.now ∷ rest_of self.now) }
    {
        self.words.all()
    }

    /// Takes off so many operands, puts one on, if it is given, and goes on at that index.
    pub fn operate(&mut self, taken: usize, given: Option<u64>, index: usize)
        requires { CanTake self.old }
        ensures { shown self.new ≡ Runs (at (top_of self.old) index (put given (drop taken (top_of self.old).words))) (rest_of self.old) }
    {
        self.flight = None;
        self.words.take_off(taken);
        self.words.put(given);
        self.top.index = index;
    }

    /// Exchanges the two top operands and goes on at that index.
    pub fn exchange(&mut self, index: usize)
        requires { CanTake self.old }
        ensures { shown self.new ≡ Runs (at (top_of self.old) index (swapped (top_of self.old).words)) (rest_of self.old) }
    {
        self.flight = None;
        self.words.swap();
        self.top.index = index;
    }

    /// Enters a block and goes on at that index.
    pub fn open(&mut self, block: Block, index: usize)
        requires { CanTake self.old }
        ensures { shown self.new ≡ Runs (meaning.nested (top_of self.old) (opening (top_of self.old).nest (open_of block)) index (top_of self.old).words) (rest_of self.old) }
    {
        self.flight = None;
        self.blocks.push(block);
        self.top.index = index;
    }

    /// Leaves the innermost block and goes on at that index.
    pub fn close(&mut self, index: usize)
        ensures { shown self.new ≡ Runs (meaning.nested (top_of self.old) (closing (top_of self.old).nest) index (top_of self.old).words) (rest_of self.old) }
    {
        self.flight = None;
        self.blocks.take_off(1);
        self.top.index = index;
    }

    /// Takes off so many operands, has that exception and goes on at that index.
    pub fn hold(&mut self, taken: usize, held: Held, index: usize)
        ensures { shown self.new ≡ Runs (meaning.nested (top_of self.old) (holding (top_of self.old).nest (held_of held)) index (drop taken (top_of self.old).words)) (rest_of self.old) }
    {
        self.flight = None;
        self.words.take_off(taken);
        self.top.held = held;
        self.top.index = index;
    }

    /// Leaves the innermost handler and goes on at that index.
    pub fn end_handler(&mut self, index: usize)
        ensures { shown self.new ≡ Runs (meaning.nested (top_of self.old) (handled (top_of self.old).nest) index (top_of self.old).words) (rest_of self.old) }
    {
        self.flight = None;
        self.caught.take_off(1);
        self.top.index = index;
    }

    /// Begins to unwind with an exception.
    pub fn fly(&mut self, exception: Exception)
        ensures { shown self.new ≡ Unwinds (exception_of exception) (meaning.nested (top_of self.old) (holding (top_of self.old).nest meaning.Free) (top_of self.old).index (top_of self.old).words) (rest_of self.old) }
    {
        self.flight = Some(exception);
        self.top.held = Held::Free;
    }

    /// Cuts the operands, has the exception in flight and goes on at that index.
    pub fn clean(&mut self, exception: Exception, target: usize, depth: usize)
        ensures { shown self.new ≡ Runs (meaning.nested (top_of self.old) (holding (top_of self.old).nest (meaning.Flying (exception_of exception))) target (cut depth (top_of self.old).words)) (rest_of self.old) }
    {
        self.flight = None;
        self.words.cut(depth);
        self.top.held = Held::Flying(exception);
        self.top.index = target;
    }

    /// Cuts the operands, enters a handler of the exception and goes on at that index.
    pub fn handle(&mut self, exception: Exception, target: usize, depth: usize)
        requires { CanTake self.old }
        ensures { shown self.new ≡ Runs (meaning.nested (top_of self.old) (catching (top_of self.old).nest (exception_of exception)) target (cut depth (top_of self.old).words)) (rest_of self.old) }
    {
        self.flight = None;
        self.caught.push(exception);
        self.words.cut(depth);
        self.top.held = Held::Free;
        self.top.index = target;
    }

    /// Cuts the operands, leaves the innermost block, has the exception in flight and goes on at that index.
    pub fn cross(&mut self, exception: Exception, target: usize, depth: usize)
        ensures { shown self.new ≡ Runs (meaning.nested (top_of self.old) (holding (closing (top_of self.old).nest) (meaning.Flying (exception_of exception))) target (cut depth (top_of self.old).words)) (rest_of self.old) }
    {
        self.flight = None;
        self.blocks.take_off(1);
        self.words.cut(depth);
        self.top.held = Held::Flying(exception);
        self.top.index = target;
    }

    // A frame above begins, which gets so many operands, the deepest at the top.
    fn enter(&mut self, frame: Frame, words: usize)
        requires room { CanTake self.old }
        requires words { words ≤ length (top_of self.old).words }
        requires resumes { self.old.top.index < 18446744073709551615 }
        ensures top { top_of self.new ≡ frame_of self.old.thread frame (reverse (take words (top_of self.old).words)) [] [] }
        ensures rest { rest_of self.new ≡ at (top_of self.old) (top_of self.old).index (drop words (top_of self.old).words) ∷ rest_of self.old }
        ensures flight { self.new.flight ≡ self.old.flight }
    {
        let words = self.words.enter(words);
        let blocks = self.blocks.enter(0);
        let caught = self.caught.enter(0);
        let _ = self.below.push(Suspended {
            frame: self.top,
            words,
            blocks,
            caught,
        });
        self.top = frame;
    }

    /// Calls a body with so many operands.
    pub fn call(&mut self, func: u32, safe: bool, address: u32, words: u8)
        requires room { CanTake self.old }
        requires words { words ≤ length (top_of self.old).words }
        requires resumes { self.old.top.index < 18446744073709551615 }
        ensures { shown self.new ≡ Runs (first_frame (record { thread = self.old.thread; func = func; safe = safe; base = address }) (reverse (take words (top_of self.old).words))) (at (top_of self.old) (top_of self.old).index (drop words (top_of self.old).words) ∷ rest_of self.old) }
    {
        self.flight = None;
        self.enter(
            Frame {
                func,
                safe,
                address,
                index: 0,
                held: Held::Free,
            },
            usize::from(words),
        );
    }

    /// Calls a body with so many operands, and takes off the one under these.
    #[tactic(auto, using(crate::proofs::Stacked::one_more_turned))]
    pub fn call_indirect(&mut self, func: u32, safe: bool, address: u32, words: u8)
        requires room { CanTake self.old }
        requires words { words < length (top_of self.old).words }
        requires resumes { self.old.top.index < 18446744073709551615 }
        ensures { shown self.new ≡ Runs (first_frame (record { thread = self.old.thread; func = func; safe = safe; base = address }) (reverse (take words (top_of self.old).words))) (at (top_of self.old) (top_of self.old).index (drop (words + 1) (top_of self.old).words) ∷ rest_of self.old) }
    {
        self.flight = None;
        self.enter(
            Frame {
                func,
                safe,
                address,
                index: 0,
                held: Held::Free,
            },
            usize::from(words) + 1,
        );
        self.words.take_off(1);
    }

    /// Leaves the frame, and the one below goes on behind its call, with this operand more if there is one.
    pub fn ret(&mut self, given: Option<u64>)
        requires { CanTake self.old }
        ensures { shown self.new ≡ returned given (top_of self.old) (rest_of self.old) }
    {
        self.flight = None;
        if let Some(below) = self.below.pop() {
            self.words.leave(below.words);
            self.blocks.leave(below.blocks);
            self.caught.leave(below.caught);
            self.words.put(given);
            self.top = below.frame;
            self.top.index = below.frame.index + 1;
        }
    }

    /// Leaves the frame by an exception, which then unwinds the frame below.
    pub fn unwind(&mut self, exception: Exception)
        ensures { shown self.new ≡ left (exception_of exception) (top_of self.old) (rest_of self.old) }
    {
        self.flight = Some(exception);
        if let Some(below) = self.below.pop() {
            self.words.leave(below.words);
            self.blocks.leave(below.blocks);
            self.caught.leave(below.caught);
            self.top = below.frame;
        }
    }
}

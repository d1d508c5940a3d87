//! The frames of a thread, one on the other.

ghost use Rattle.std.specs.Prelude.{◌≡◌, ◌≤◌, ◌+◌, ◌∷◌, ◌++◌, [], ℕ, List, true, length, slice_get, take, drop, OnOk, OnErr, MatchOption, Some};
ghost use Rattle.src_mean.specs.Frames.{Waiting as Waits, puts, same_owner};
ghost use Rattle.src_bind.specs.Tables.{Given};
ghost use Rattle.src_frames.specs.declared.frames.Frame.{Frame as FrameAt};
ghost use Rattle.src_frames.specs.Shown.{owner_shown, waiting_shown, frame_shown, frames_shown};
ghost use Rattle.src_frames.specs.Sorts.{is_atomic as is_atomic_at, is_atomic_open, atomics_in, weight as weight_of, is_scope_of as is_scope_at, is_scope_in as is_scope_among, waits_too, handling, handling_in, place_in, handlers_in, newest_handled};

use crate::frames::{
    BlockFrame, Exception, ExceptionFrame, Frame, ObjectFrame, Open, Owner, Waiting,
};
use std::alloc::{AllocError, Global};

/// Frames, the innermost last, how many of them are open atomic blocks, and the indices of the entered handlers among
/// them: so neither a call nor a `throw;` in a deep recursion need look for one.
#[derive(Drop)]
pub struct Stack {
    pub list: Vec<Frame>,
    pub atomics: usize,
    pub handlers: Vec<usize>,
    pub ghost counted: { atomics ≡ atomics_in list.items },
    pub ghost entered: { handlers.items ≡ handlers_in list.items },
}

impl Stack {
    /// No frame.
    pub fn new(alloc: Global) -> Stack
        ensures { result.list.items ≡ [] }
    {
        Stack {
            list: Vec::new(alloc),
            atomics: 0,
            handlers: Vec::new(alloc),
        }
    }

    /// How many frames there are.
    pub fn len(&self) -> usize
        ensures { result ≡ length self.now.list.items }
    {
        self.list.len()
    }

    /// Puts a frame on the others.
    pub fn push(&mut self, frame: Frame) -> Result<(), AllocError>
        ensures { OnOk result (self.new.list.items ≡ self.old.list.items ++ frame ∷ []) }
    {
        let more = weight(&frame);
        keep_handler(&mut self.handlers, &frame, self.list.len())?;
        match self.list.push(frame) {
            Ok(()) => {
                self.atomics += more;
                Ok(())
            }
            Err(failed) => {
                drop_handler(&mut self.handlers, &failed.value);
                Err(AllocError)
            }
        }
    }

    /// Takes the innermost frame off, if there is one.
    pub fn pop(&mut self) -> Option<Frame>
        ensures { MatchOption result ((self.old.list.items ≡ []) × (self.new.list.items ≡ [])) (λ f. self.old.list.items ≡ self.new.list.items ++ f ∷ []) }
    {
        match self.list.pop() {
            Some(frame) => {
                self.atomics -= weight(&frame);
                drop_handler(&mut self.handlers, &frame);
                Some(frame)
            }
            None => None,
        }
    }

    /// The exception of the innermost entered handler.
    pub fn handled(&self) -> Option<Exception>
        ensures { result ≡ newest_handled self.now.list.items }
    {
        match self.handlers.last() {
            Some(place) => handled_at(&self.list[*place]),
            None => None,
        }
    }

    // How many frames stand up to the nearest scope of that owner, it among them; 0 where there is none.
    fn scope_of(&self, owner: Owner) -> usize
        ensures within { result ≤ length self.now.list.items }
        ensures found { (k : ℕ) (f : FrameAt) → result ≡ k + 1 → slice_get self.now.list.items k ≡ Some f → is_scope_at owner f ≡ true }
        ensures passed { (g : Given) (w : Waits) → puts (owner_shown owner) w (frames_shown g self.now.list.items) ≡ frames_shown g (drop result self.now.list.items) ++ puts (owner_shown owner) w (frames_shown g (take result self.now.list.items)) }
    {
        let mut left = self.list.len();
        while left > 0 {
            if is_scope(&self.list[left - 1], owner) {
                return left;
            }
            left -= 1;
        }
        0
    }

    /// Puts objects into the nearest scope of that owner.
    #[tactic(auto, using(crate::proofs::Stacks::put_none))]
    pub fn put_waiting(&mut self, owner: Owner, waiting: Waiting) -> Result<(), AllocError>
        ensures { (g : Given) → OnOk result (frames_shown g self.new.list.items ≡ puts (owner_shown owner) (waiting_shown g.program waiting) (frames_shown g self.old.list.items)) }
    {
        let count = self.scope_of(owner);
        if count == 0 {
            return Ok(());
        }
        if let Some(frame) = self.list.get_mut(count - 1) {
            add_waiting(frame, waiting)?;
        }
        Ok(())
    }
}

// Adds objects to a scope.
fn add_waiting(frame: &mut Frame, waiting: Waiting) -> Result<(), AllocError>
    ensures added { (g : Given) → OnOk result (frame_shown g frame.new ≡ waits_too (waiting_shown g.program waiting) (frame_shown g frame.old)) }
    ensures kept { weight_of frame.new ≡ weight_of frame.old }
    ensures handles { handling frame.new ≡ handling frame.old }
{
    if let Frame::Object(ObjectFrame::Scope { waiting: list, .. }) = frame {
        list.push(waiting)?;
    }
    Ok(())
}

// Whether two owners are one.
fn is_same(owner: Owner, other: Owner) -> bool
    ensures { result ≡ same_owner (owner_shown owner) (owner_shown other) }
{
    match (owner, other) {
        (Owner::Block, Owner::Block) => true,
        (Owner::Call, Owner::Call) => true,
        (Owner::Pieces, Owner::Pieces) => true,
        _ => false,
    }
}

// Whether it is a scope of that owner.
fn is_scope(frame: &Frame, owner: Owner) -> bool
    ensures { result ≡ is_scope_at owner frame.now }
{
    match frame {
        Frame::Object(inner) => is_scope_in(inner, owner),
        _ => false,
    }
}

fn is_scope_in(frame: &ObjectFrame, owner: Owner) -> bool
    ensures { result ≡ is_scope_among owner frame.now }
{
    match frame {
        ObjectFrame::Scope { owner: other, .. } => is_same(owner, *other),
        _ => false,
    }
}

// The index of a frame is kept if a handler is entered in it.
fn keep_handler(handlers: &mut Vec<usize>, frame: &Frame, place: usize) -> Result<(), AllocError>
    ensures kept { OnOk result (handlers.new.items ≡ handlers.old.items ++ place_in frame.now place) }
    ensures same { OnErr result (handlers.new.items ≡ handlers.old.items) }
{
    if handled_at(frame).is_some() {
        handlers.push(place)?;
    }
    Ok(())
}

// The index of the last of these frames is dropped if a handler is entered in it.
fn drop_handler(handlers: &mut Vec<usize>, frame: &Frame)
    ensures { (others : List ℕ) (place : ℕ) → handlers.old.items ≡ others ++ place_in frame.now place → handlers.new.items ≡ others }
{
    if handled_at(frame).is_some() {
        let _ = handlers.pop();
    }
}

// The exception of an entered handler.
fn handled_at(frame: &Frame) -> Option<Exception>
    ensures { result ≡ handling frame.now }
{
    match frame {
        Frame::Exception(inner) => handled_in(inner),
        _ => None,
    }
}

fn handled_in(frame: &ExceptionFrame) -> Option<Exception>
    ensures { result ≡ handling_in frame.now }
{
    match frame {
        ExceptionFrame::Handling(exception) => Some(*exception),
        _ => None,
    }
}

// How many atomic blocks are open in a frame itself: 1 or none.
fn weight(frame: &Frame) -> usize
    ensures { result ≡ weight_of frame.now }
{
    if is_atomic(frame) { 1 } else { 0 }
}

// Whether an atomic block is open in it.
fn is_atomic(frame: &Frame) -> bool
    ensures { result ≡ is_atomic_at frame.now }
{
    match frame {
        Frame::Block(BlockFrame::Within(block) | BlockFrame::Closes(block)) => {
            is_atomic_block(*block)
        }
        _ => false,
    }
}

// Whether it is an atomic block.
fn is_atomic_block(block: Open) -> bool
    ensures { result ≡ is_atomic_open block }
{
    match block {
        Open::Atomic(_) => true,
        Open::Sync => false,
    }
}

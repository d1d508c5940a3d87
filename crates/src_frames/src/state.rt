//! States of a thread, and how one goes on with an event.

ghost use Rattle.std.specs.Prelude.{◌≡◌, ◌∷◌, IfOk, OnOk, option_map};
ghost use Rattle.cpp_tree.specs.tx_events.declared.Event.TheVariants.{Silent};
ghost use Rattle.cpp_tree.specs.tx_events.declared.End.TheVariants.{Trapped as TrappedBy};
ghost use Rattle.cpp_tree.specs.tx_events.Thread.{no_atomic};
ghost use Rattle.src_mean.specs.Frames.{at, Run as Runs, Gives as GivesWord, blocks_of, handled as handled_of, puts};
ghost use Rattle.src_mean.specs.Source.{halt as halted, read as reads, write as writes, place_address as address_of_place, empty_stack as empty_stack_of};
ghost use Rattle.src_bind.specs.Bounds.{given};
ghost use Rattle.src_frames.specs.Shown.{here_shown, offset_of, way_shown, exception_shown, owner_shown, waiting_shown};
ghost use Rattle.src_frames.specs.Bounds.{tree_of, frame_of, here_of, frames_of, after};

use crate::frames::{EndFrame, Exception, Frame, Here, Owner, ValueFrame, Waiting, Way};
use crate::stack::Stack;
use crate::trees::TreeAt;
use crate::words::{plus, size_of_kind, stored_bytes};
use cpp_tree::below::{End, Event, IntKind, STACK_SIZE, STACK_STRIDE, STACKS_START, Trap};
use src_bind::Bound;
use std::alloc::{AllocError, Global};

/// What a step comes to: `Some` is a value that goes on to the next frame, and at `None` the step is done. On
/// `AllocError` the state is of no more use.
pub type Going = Result<Option<u64>, AllocError>;

/// The next event of a thread, the frame at hand, and what is left to do with the reply, the innermost frame last.
#[derive(Drop)]
pub struct State {
    pub alloc: Global,
    pub event: Event,
    pub here: Here,
    pub frames: Stack,
}

/// The stack of this thread, on which nothing lies yet.
pub fn empty_stack(alloc: Global, bound: &Bound<'_>, number: u8) -> Here
    ensures { here_shown (given bound.now) result ≡ empty_stack_of number }
{
    let start = STACKS_START + STACK_STRIDE * u64::from(number);
    Here {
        frame: start,
        end: start,
        limit: start + STACK_SIZE,
        func: None,
        temporaries: Vec::new(alloc),
    }
}

/// The address of a place of the frame at hand.
pub fn place_address(bound: &Bound<'_>, here: &Here, place: u32) -> u64
    ensures { result ≡ address_of_place (here_shown (given bound.now) here.now) place }
{
    plus(here.frame, u64::from(place_offset(bound, here.func, place)))
}

// The offset of a place in the frames of a function.
fn place_offset(bound: &Bound<'_>, func: Option<u32>, place: u32) -> u32
    ensures { result ≡ offset_of (given bound.now) func place }
{
    let Some(number) = func else {
        return 0;
    };
    match bound.info(number) {
        Some(info) => match info.places.get(place as usize) {
            Some(offset) => *offset,
            None => 0,
        },
        None => 0,
    }
}

/// The unit of the function at hand.
pub fn unit_of(bound: &Bound<'_>, here: &Here) -> u32
    ensures { result ≡ (here_shown (given bound.now) here.now).unit }
{
    let Some(number) = here.func else {
        return 0;
    };
    match bound.info(number) {
        Some(info) => info.unit,
        None => 0,
    }
}

impl State {
    /// Puts a frame on the others.
    #[tactic(auto, using(crate::proofs::Stacks::shown_push))]
    pub fn push(&mut self, bound: &Bound<'_>, frame: Frame) -> Result<(), AllocError>
        ensures frames { OnOk result (frames_of bound.now self.new ≡ frame_of bound.now frame ∷ frames_of bound.now self.old) }
        ensures here { OnOk result (here_of bound.now self.new ≡ here_of bound.now self.old) }
        ensures event { OnOk result (self.new.event ≡ self.old.event) }
    {
        let _shown = bound;
        self.frames.push(frame)?;
        Ok(())
    }

    /// Goes on with a frame after a silent step.
    pub fn goes(&mut self, bound: &Bound<'_>, frame: Frame) -> Going
        ensures { IfOk result (λ o. after bound.now o self.new ≡ at Silent (here_of bound.now self.old) (frame_of bound.now frame ∷ frames_of bound.now self.old)) }
    {
        self.push(bound, frame)?;
        self.event = Event::Silent;
        Ok(None)
    }

    /// Runs a tree next.
    pub fn run_next(&mut self, bound: &Bound<'_>, way: Way, tree: TreeAt) -> Going
        ensures { IfOk result (λ o. after bound.now o self.new ≡ at Silent (here_of bound.now self.old) (Runs (way_shown way) (tree_of bound.now tree) ∷ frames_of bound.now self.old)) }
    {
        self.goes(bound, Frame::Run(way, tree))
    }

    /// A value goes on behind a silent step.
    pub fn gives(&mut self, bound: &Bound<'_>, word: u64) -> Going
        ensures { IfOk result (λ o. after bound.now o self.new ≡ at Silent (here_of bound.now self.old) (GivesWord word ∷ frames_of bound.now self.old)) }
    {
        self.goes(bound, Frame::Gives(word))
    }

    /// Goes on with a frame after an event.
    pub fn comes(&mut self, bound: &Bound<'_>, event: Event, frame: Frame) -> Going
        ensures { IfOk result (λ o. after bound.now o self.new ≡ at event (here_of bound.now self.old) (frame_of bound.now frame ∷ frames_of bound.now self.old)) }
    {
        self.push(bound, frame)?;
        self.event = event;
        Ok(None)
    }

    /// The program ends so.
    pub fn halt(&mut self, bound: &Bound<'_>, end: End) -> Going
        ensures { IfOk result (λ o. after bound.now o self.new ≡ halted (here_of bound.now self.old) end (frames_of bound.now self.old)) }
    {
        self.comes(
            bound,
            Event::Stop { end },
            Frame::End(EndFrame::Halted(end)),
        )
    }

    /// The program ends by a trap.
    pub fn trap(&mut self, bound: &Bound<'_>, trap: Trap) -> Going
        ensures { IfOk result (λ o. after bound.now o self.new ≡ halted (here_of bound.now self.old) (TrappedBy trap) (frames_of bound.now self.old)) }
    {
        self.halt(bound, End::Trapped(trap))
    }

    /// Reads a scalar.
    pub fn read(&mut self, bound: &Bound<'_>, addr: u64, kind: IntKind, volatile: bool) -> Going
        ensures { IfOk result (λ o. after bound.now o self.new ≡ reads (here_of bound.now self.old) addr kind volatile (frames_of bound.now self.old)) }
    {
        let event = Event::Load {
            addr,
            size: size_of_kind(kind),
            volatile,
        };
        self.comes(bound, event, Frame::Value(ValueFrame::Loaded(kind)))
    }

    /// Writes a scalar, and goes on with a frame.
    pub fn write(
        &mut self,
        bound: &Bound<'_>,
        addr: u64,
        kind: IntKind,
        volatile: bool,
        word: u64,
        then: Frame,
    ) -> Going
        ensures { IfOk result (λ o. after bound.now o self.new ≡ writes (here_of bound.now self.old) addr kind volatile word (frame_of bound.now then ∷ frames_of bound.now self.old)) }
    {
        let event = Event::Store {
            addr,
            size: size_of_kind(kind),
            value: stored_bytes(kind, word),
            volatile,
        };
        self.comes(bound, event, then)
    }

    /// The exception of the innermost entered handler.
    pub fn handled(&self, bound: &Bound<'_>) -> Option<Exception>
        ensures { option_map (exception_shown (given bound.now).program) result ≡ handled_of (frames_of bound.now self.now) }
    {
        let _shown = bound;
        self.frames.handled()
    }

    /// Whether no atomic block is open.
    pub fn has_no_atomic(&self, bound: &Bound<'_>) -> bool
        ensures { result ≡ no_atomic (blocks_of (frames_of bound.now self.now)) }
    {
        let _shown = bound;
        self.frames.atomics == 0
    }

    /// Puts objects into the nearest scope of that owner.
    pub fn put_waiting(
        &mut self,
        bound: &Bound<'_>,
        owner: Owner,
        waiting: Waiting,
    ) -> Result<(), AllocError>
        ensures frames { OnOk result (frames_of bound.now self.new ≡ puts (owner_shown owner) (waiting_shown (given bound.now).program waiting) (frames_of bound.now self.old)) }
        ensures here { OnOk result (here_of bound.now self.new ≡ here_of bound.now self.old) }
    {
        let _shown = bound;
        self.frames.put_waiting(owner, waiting)
    }
}

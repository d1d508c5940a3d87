//! A thread of an image.
ghost use Rattle.std.specs.Prelude.{◌≡◌, IfOk, min};
ghost use Rattle.tx_code.specs.Views.{image_view};
ghost use Rattle.tx_code.specs.Sound.{Sound};
ghost use Rattle.vm_frames.specs.FrameStacks.{shown, CanTake};
ghost use Rattle.vm_thread.specs.Threads.{Running, running, IsReached, at_main, innermost, all_frames};
ghost use Rattle.vm_frames.specs.Frames.{words_in};
ghost use Rattle.vm_thread.specs.ThreadLaws.{running_laws};

use crate::deciding::next_step;
use crate::lookups::stack_start;
use crate::plain::{go_on, plain_step};
use std::alloc::{AllocError, Global};
use tx_code::Image;
use tx_code::laws::an_image_is_whole;
use tx_events::{Actor, End, Event, Reply};
use vm_frames::changes::apply;
use vm_frames::frames::FrameStack;
use vm_frames::step::Step;
use vm_frames::values::argument;

/// The place of a thread in its image.
#[derive(Clone, Copy, PartialEq, Eq, Debug)]
pub struct Here {
    pub func: u32,
    /// It runs the function's safe body.
    pub safe: bool,
    pub index: u32,
}

/// A thread of a sound image, which it shares with the other threads.
#[derive(Drop)]
pub struct VmThread<'a> {
    alloc: Global,
    image: &'a Image,
    frames: FrameStack,
    pub ghost reached: { IsReached (record { image = image_view image.now; state = shown frames }) },
}

impl<'a> Actor for VmThread<'a> {
    type Saved = VmThread<'a>;

    ghost State = { Running };

    ghost state = { λ t. record { image = image_view t.image.now; state = shown t.frames } };

    ghost saved_state = { λ t. record { image = image_view t.image.now; state = shown t.frames } };

    ghost has_capacity = { λ t. CanTake t.frames };

    ghost is_reached = { IsReached };

    ghost thread = { running };

    fn next(&self) -> Event {
        if let Some(plain) = plain_step(self.image, &self.frames) {
            return plain.event;
        }
        match next_step(self.image, &self.frames) {
            Step::Does { event, change: _ } => event,
            Step::Ends(event) => event,
            Step::Lost => Event::Stop { end: End::Abort },
        }
    }

    fn ready(&mut self) -> Result<(), AllocError> {
        self.frames.ready()
    }

    fn take(&mut self, reply: Reply) {
        if let Some(plain) = plain_step(self.image, &self.frames) {
            go_on(&mut self.frames, plain, reply);
            return;
        }
        match next_step(self.image, &self.frames) {
            Step::Does { event: _, change } => apply(&mut self.frames, change, reply),
            Step::Ends(_) | Step::Lost => {}
        }
    }

    fn save(&self) -> Result<VmThread<'a>, AllocError> {
        let frames = self.frames.copy(self.alloc)?;
        Ok(VmThread {
            alloc: self.alloc,
            image: self.image,
            frames,
        })
    }

    fn restore(&mut self, saved: VmThread<'a>) {
        *self = saved;
    }

    fn copy_saved(&self, saved: &VmThread<'a>) -> Result<VmThread<'a>, AllocError> {
        saved.save()
    }

    fn start(&self, number: u8, func: u64, arg: i64) -> Result<VmThread<'a>, AllocError> {
        let frames = FrameStack::start(
            self.alloc,
            number,
            func as u32,
            stack_start(number),
            Some(argument(arg)),
        )?;
        Ok(VmThread {
            alloc: self.alloc,
            image: self.image,
            frames,
        })
    }

    ghost laws = { running_laws };
}

impl<'a> VmThread<'a> {
    /// Thread 0 at the start of `main`, of a sound image.
    pub fn new(alloc: Global, image: &'a Image) -> Result<VmThread<'a>, AllocError>
        requires { Sound (image_view image.now) }
        ensures { IfOk result (λ t. ⟦<VmThread<'a> as Actor>⟧.state t ≡ at_main (image_view image.now)) }
    {
        an_image_is_whole(image);
        let frames = FrameStack::start(alloc, 0, image.main, stack_start(0), None)?;
        Ok(VmThread {
            alloc,
            image,
            frames,
        })
    }

    /// Where the thread is: its function and body, and the index of its next instruction, or of the last one where an
    /// exception unwinds a frame. An index past the greatest `u32`, which no object can spell, is given as that.
    pub fn here(&self) -> Here
        ensures func { result.func ≡ (innermost (shown self.now.frames)).home.func }
        ensures safe { result.safe ≡ (innermost (shown self.now.frames)).home.safe }
        ensures index { result.index ≡ min (innermost (shown self.now.frames)).index 4294967295 }
    {
        let frame = &self.frames.top;
        Here {
            func: frame.func,
            safe: frame.safe,
            index: frame.index.min(4294967295) as u32,
        }
    }

    /// The operands of all frames, the outermost frame first and each frame's from the bottom up.
    pub fn words(&self) -> &[u64]
        ensures { result.now ≡ words_in (all_frames (shown self.now.frames)) }
    {
        self.frames.all_words()
    }
}

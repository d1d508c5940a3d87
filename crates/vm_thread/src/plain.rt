//! Steps on operands, decided without a value that has room for every step.
ghost use Rattle.std.specs.Prelude.{◌≡◌, ◌<◌, IfSome};
ghost use Rattle.tx_code.specs.Meaning as meaning;
ghost use Rattle.tx_code.specs.Program.{names_of};
ghost use Rattle.tx_code.specs.Views.{image_view};
ghost use Rattle.vm_frames.specs.declared.step.Step.TheVariants.{Does};
ghost use Rattle.vm_frames.specs.declared.step.Change.TheVariants.{Operate};
ghost use Rattle.vm_frames.specs.FrameStacks.{top_of, rest_of, shown, CanTake};
ghost use Rattle.vm_frames.specs.Steps.{Means, given_word, changed};

use crate::deciding::{
    bin, conv, dup, frame_address, jump, jump_zero, leave_word, load, neg, over, pop, store,
};
use crate::lookups;
use tx_code::{Image, Instr};
use tx_events::{Event, Reply};
use tx_ints::{value_of_word, word_of};
use vm_frames::frames::FrameStack;
use vm_frames::step::{Change, Given, Step};
use vm_frames::values::{answered, loaded};

/// A step that only takes operands off, leaves a word and goes on at an index.
#[derive(Clone, Copy)]
pub(crate) struct Plain {
    pub(crate) event: Event,
    pub(crate) taken: u8,
    pub(crate) given: Given,
    pub(crate) index: usize,
}

// A step as one on operands, if it is one.
#[inline(always)]
fn as_plain(step: Step) -> Option<Plain>
    ensures { IfSome result (λ p. step ≡ Does p.event (Operate p.taken p.given p.index)) }
{
    match step {
        Step::Does {
            event,
            change: Change::Operate {
                taken,
                given,
                index,
            },
        } => Some(Plain {
            event,
            taken,
            given,
            index,
        }),
        _ => None,
    }
}

// The step of an instruction on operands.
#[inline(always)]
fn on_operands(image: &Image, frames: &FrameStack, instr: Instr) -> Option<Plain>
    requires { frames.now.top.index < 18446744073709551615 }
    ensures { IfSome result (λ p. Means (Does p.event (Operate p.taken p.given p.index)) (meaning.act (names_of (image_view image.now)) instr (top_of frames.now) (rest_of frames.now)) (top_of frames.now) (rest_of frames.now)) }
{
    match instr {
        Instr::Push(word) => as_plain(leave_word(frames, 0, word)),
        Instr::Dup => as_plain(dup(frames)),
        Instr::Pop => as_plain(pop(frames)),
        Instr::Over => as_plain(over(frames)),
        Instr::FrameAddr(offset) => as_plain(leave_word(frames, 0, frame_address(frames, offset))),
        Instr::GlobalAddr(offset) => as_plain(leave_word(
            frames,
            0,
            lookups::global_address(offset),
        )),
        Instr::Load(kind) | Instr::TLoad(kind) => as_plain(load(frames, kind, false)),
        Instr::Store(kind) | Instr::TStore(kind) => as_plain(store(frames, kind, false)),
        Instr::VLoad(kind) => as_plain(load(frames, kind, true)),
        Instr::VStore(kind) => as_plain(store(frames, kind, true)),
        Instr::Bin { op, kind } => as_plain(bin(frames, op, kind)),
        Instr::Neg(kind) => as_plain(neg(frames, kind)),
        Instr::Conv { from, to } => as_plain(conv(frames, from, to)),
        Instr::Jump(target) => as_plain(jump(frames, target)),
        Instr::JumpZero(target) => as_plain(jump_zero(frames, target)),
        _ => None,
    }
}

// The step of a frame that runs.
#[inline(always)]
fn running(image: &Image, frames: &FrameStack) -> Option<Plain>
    ensures { IfSome result (λ p. Means (Does p.event (Operate p.taken p.given p.index)) (meaning.step_act (names_of (image_view image.now)) (meaning.Runs (top_of frames.now) (rest_of frames.now))) (top_of frames.now) (rest_of frames.now)) }
{
    let frame = &frames.top;
    match lookups::instr(image, frame.func, frame.safe, frame.index) {
        None => None,
        Some(instr) => on_operands(image, frames, instr),
    }
}

/// The next step of a thread of an image, if it is one on operands that most code has.
#[inline(always)]
pub(crate) fn plain_step(image: &Image, frames: &FrameStack) -> Option<Plain>
    ensures { IfSome result (λ p. Means (Does p.event (Operate p.taken p.given p.index)) (meaning.step_act (names_of (image_view image.now)) (shown frames.now)) (top_of frames.now) (rest_of frames.now)) }
{
    match frames.flight {
        None => running(image, frames),
        Some(_) => None,
    }
}

// The word that a step leaves after this reply.
#[inline(always)]
fn given_word(given: Given, reply: Reply) -> Option<u64>
    ensures { result ≡ given_word given reply }
{
    match given {
        Given::Nothing => None,
        Given::Word(word) => Some(word),
        Given::Loaded(kind) => Some(word_of(value_of_word(kind, loaded(reply)))),
        Given::Answered => Some(word_of(i128::from(answered(reply)))),
    }
}

/// Carries out a step, after this reply.
#[inline(always)]
pub(crate) fn go_on(frames: &mut FrameStack, plain: Plain, reply: Reply)
    requires { CanTake frames.old }
    ensures { shown frames.new ≡ changed (Operate plain.taken plain.given plain.index) reply (top_of frames.old) (rest_of frames.old) }
{
    let word = given_word(plain.given, reply);
    frames.operate(usize::from(plain.taken), word, plain.index);
}

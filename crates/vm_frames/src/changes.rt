//! Steps as they are carried out.
ghost use Rattle.std.specs.Prelude.{◌≡◌, true};
ghost use Rattle.vm_frames.specs.FrameStacks.{top_of, rest_of, shown, CanTake};
ghost use Rattle.vm_frames.specs.Steps.{given_word, changed, fits};

use crate::frames::FrameStack;
use crate::step::{Change, Given};
use crate::values::{answered, loaded};
use tx_events::Reply;
use tx_ints::{value_of_word, word_of};

// The word that a step leaves after this reply.
fn given_word(given: Given, reply: Reply) -> Option<u64>
    ensures { result ≡ given_word given reply }
{
    match given {
        Given::Nothing => None,
        Given::Word(word) => Some(word),
        Given::Loaded(kind) => Some(word_of(value_of_word(kind, loaded(reply)))),
        Given::Answered => Some(word_of(i128::from(answered(reply)))),
    }
}

/// Carries out a change, after this reply.
pub fn apply(frames: &mut FrameStack, change: Change, reply: Reply)
    requires room { CanTake frames.old }
    requires fits { fits change (top_of frames.old) ≡ true }
    ensures { shown frames.new ≡ changed change reply (top_of frames.old) (rest_of frames.old) }
{
    match change {
        Change::Operate {
            taken,
            given,
            index,
        } => {
            frames.operate(usize::from(taken), given_word(given, reply), index);
        }
        Change::Exchange { index } => frames.exchange(index),
        Change::Call(callee) => frames.call(callee.func, callee.safe, callee.address, callee.words),
        Change::CallIndirect(callee) => {
            frames.call_indirect(callee.func, callee.safe, callee.address, callee.words);
        }
        Change::Return(given) => frames.ret(given),
        Change::Open { block, index } => frames.open(block, index),
        Change::Close { index } => frames.close(index),
        Change::Hold { taken, held, index } => frames.hold(usize::from(taken), held, index),
        Change::EndHandler { index } => frames.end_handler(index),
        Change::Fly(exception) => frames.fly(exception),
        Change::Clean(to) => frames.clean(to.exception, to.target as usize, to.depth as usize),
        Change::Handle(to) => frames.handle(to.exception, to.target as usize, to.depth as usize),
        Change::Cross(to) => frames.cross(to.exception, to.target as usize, to.depth as usize),
        Change::Leave(exception) => frames.unwind(exception),
    }
}

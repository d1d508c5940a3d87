//! What a thread does next, as a value.
use crate::parts::{Block, Exception, Held};
use tx_events::Event;
use tx_ints::IntKind;

/// The word that an instruction leaves.
#[derive(Clone, Copy)]
pub enum Given {
    Nothing,
    Word(u64),
    /// The number of this kind that the reply has read.
    Loaded(IntKind),
    /// The byte or the number of a thread in the reply.
    Answered,
}

/// A body that is called, with so many operands.
#[derive(Clone, Copy)]
pub struct Callee {
    pub func: u32,
    pub safe: bool,
    /// The address of its frame.
    pub address: u32,
    pub words: u8,
}

/// An exception that a row takes: the row's target, and how many operands it keeps.
#[derive(Clone, Copy)]
pub struct Landing {
    pub exception: Exception,
    pub target: u32,
    pub depth: u32,
}

/// What a step does to the frames.
#[derive(Clone, Copy)]
pub enum Change {
    /// Takes operands off, leaves a word and goes on at an index.
    Operate {
        taken: u8,
        given: Given,
        index: usize,
    },
    /// Exchanges the two top operands.
    Exchange {
        index: usize,
    },
    Call(Callee),
    /// The same, where the function's address lies under the operands.
    CallIndirect(Callee),
    /// Hands a word, or none, to the frame below.
    Return(Option<u64>),
    Open {
        block: Block,
        index: usize,
    },
    Close {
        index: usize,
    },
    Hold {
        taken: u8,
        held: Held,
        index: usize,
    },
    EndHandler {
        index: usize,
    },
    /// Begins to unwind.
    Fly(Exception),
    Clean(Landing),
    Handle(Landing),
    /// Leaves the innermost block.
    Cross(Landing),
    /// Leaves the frame while it unwinds.
    Leave(Exception),
}

/// A step of a thread.
#[derive(Clone, Copy)]
pub enum Step {
    Does { event: Event, change: Change },
    /// The thread's last event.
    Ends(Event),
    /// What code of a sound image does not come to.
    Lost,
}

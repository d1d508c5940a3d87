//! The parts of a thread: frames, open blocks and exceptions.
ghost use Rattle.std.specs.Prelude.{◌<◌};

use tx_events::{BlockKind, EXCEPTION_SIZE};

/// An exception: the number of its type and its bytes.
#[derive(Clone, Copy)]
pub struct Exception {
    pub ty: u32,
    pub bytes: [u8; EXCEPTION_SIZE],
}

/// The exception of a frame: none, one that is being built, or one in flight.
#[derive(Clone, Copy)]
pub enum Held {
    Free,
    Building(Exception),
    Flying(Exception),
}

/// An open block (the TS, [stmt.tx] and [stmt.sync]).
#[derive(Clone, Copy)]
pub enum Block {
    Atomic(BlockKind),
    Sync,
}

/// A frame, but for what lies on stacks.
#[derive(Clone, Copy)]
pub struct Frame {
    pub func: u32,
    /// It runs the safe body.
    pub safe: bool,
    pub address: u32,
    /// The index of the next instruction, or of the call where a frame lies above.
    pub index: usize,
    pub held: Held,
}

/// A frame below another one, and where its operands, open blocks and exceptions of entered handlers begin.
#[derive(Clone, Copy)]
pub struct Suspended {
    pub frame: Frame,
    pub words: usize,
    pub blocks: usize,
    pub caught: usize,
    // There is an index behind that of the call.
    pub ghost resumes: { frame.index < 18446744073709551615 },
}

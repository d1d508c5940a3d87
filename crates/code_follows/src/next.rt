//! What comes of an instruction.

use cpp_tree::below::{BinOp, End, IntKind};
use symbolic_terms::ids::{ExceptionId, WordId};
use symbolic_terms::places::Place;

/// What an instruction does.
#[derive(Clone, Copy)]
pub enum Course {
    /// A silent step; the source stays.
    Quietly,
    /// Whether the word is 0: where it is, the step is to the target. The source stays.
    EitherWay {
        word: WordId,
        target: u32,
    },
    /// The same, where the source chooses by it.
    Chosen {
        word: WordId,
        target: u32,
    },
    /// Whether the operator traps, which the source applies too.
    UnlessTrap {
        op: BinOp,
        kind: IntKind,
        left: WordId,
        right: WordId,
    },
    /// Whether the slot of the class at this address has a function, which the source looks for too.
    Finding {
        class: u32,
        slot: u32,
        address: WordId,
    },
    /// A silent step, and the exception is in flight at the index; the source stays.
    Throwing(ExceptionId),
    /// The event of the source; the place is the one after its reply.
    Loudly,
    /// The thread that the source starts; the place is the one after the reply.
    Starting,
    /// What a caller's handler has, which the source asks for too.
    Rethrowing,
}

/// What comes of an instruction where the source does something next.
#[derive(Clone, Copy)]
pub enum Next<'a> {
    /// It is not what the source does.
    Refused,
    /// The code does this, and is at this place at this index after it.
    Goes {
        course: Course,
        index: u32,
        place: Place<'a>,
    },
    Ends(End),
}

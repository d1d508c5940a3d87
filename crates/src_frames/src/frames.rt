//! What a thread has left to do, as frames over the nodes of units.

use crate::trees::{KidsAt, TreeAt};
use cpp_tree::below::{BinOp, BlockKind, EXCEPTION_SIZE, End, IntKind};
use cpp_tree::{Builtin, TKind};

/// Objects that wait for their destruction: what gives their address, and the destructions.
#[derive(Clone, Copy, Debug, PartialEq, Eq)]
pub struct Waiting {
    pub address: TreeAt,
    pub destroys: KidsAt,
}

/// The frame at hand.
#[derive(Drop)]
pub struct Here {
    /// Its address.
    pub frame: u64,
    /// The stack pointer behind it.
    pub end: u64,
    /// The end of the thread's stack.
    pub limit: u64,
    /// The number of its function; none began on an empty stack.
    pub func: Option<u32>,
    /// The temporaries of the full-expression at hand that wait, the newest last.
    pub temporaries: Vec<Waiting>,
}

/// A node is run for its value, or into the object at `target`, where what is copied comes from `source`.
#[derive(Clone, Copy, Debug, PartialEq, Eq)]
pub enum Way {
    Value,
    Into { target: u64, source: u64 },
}

/// An exception: what was thrown, whose type it has, and its bytes.
#[derive(Clone, Copy)]
pub struct Exception {
    pub thrown: TreeAt,
    pub bytes: [u8; EXCEPTION_SIZE],
}

/// What goes outward.
#[derive(Clone, Copy)]
pub enum Exit {
    Throws(Exception),
    Returns(u64),
    Breaks,
    Continues,
}

/// Whose objects wait in a scope.
#[derive(Clone, Copy, Debug, PartialEq, Eq)]
pub enum Owner {
    Block,
    Call,
    Pieces,
}

/// An update: its operator, the kind that is loaded and stored, the kind of the operation, the mark, and whether it
/// gives the old value.
#[derive(Clone, Copy, Debug, PartialEq, Eq)]
pub struct Change {
    pub op: BinOp,
    pub stored: IntKind,
    pub operation: IntKind,
    pub volatile: bool,
    pub old: bool,
}

/// What is called; the type of a pointer is that of the tree that gave it.
#[derive(Clone, Copy, Debug, PartialEq, Eq)]
pub enum Callee {
    Known(u32),
    Virtual(u32),
    Pointer { address: u64, pointer: TreeAt },
    Builtin(Builtin),
}

/// A block that is open.
#[derive(Clone, Copy, Debug, PartialEq, Eq)]
pub enum Open {
    Atomic(BlockKind),
    Sync,
}

/// The parts of a loop.
#[derive(Clone, Copy, Debug, PartialEq, Eq)]
pub struct LoopParts {
    pub test: TreeAt,
    pub body: TreeAt,
    pub step: TreeAt,
}

/// What is to be done with a value, or in its place.
#[derive(Drop)]
pub enum Frame {
    /// Run the tree, whatever the value.
    Run(Way, TreeAt),
    /// The value is dropped, and the tree is next.
    Then(Way, TreeAt),
    /// This value in place of it.
    Gives(u64),
    /// Go outward.
    Leaves(Exit),
    Value(ValueFrame),
    Call(CallFrame),
    Object(ObjectFrame),
    Statement(StatementFrame),
    Block(BlockFrame),
    Exception(ExceptionFrame),
    End(EndFrame),
}

/// What is done with the value of an operand.
#[derive(Clone, Copy)]
pub enum ValueFrame {
    /// The value is the address.
    Loads(IntKind, bool),
    /// It is what was read.
    Loaded(IntKind),
    /// It is a reply, and goes on as it is.
    Replied,
    StoreTo {
        address: u64,
        kind: IntKind,
        volatile: bool,
        answer: u64,
    },
    Converts(IntKind),
    /// The value is the left operand.
    Right(BinOp, IntKind, TreeAt),
    Apply(BinOp, IntKind, u64),
    Choose {
        way: Way,
        chosen: TreeAt,
        other: TreeAt,
    },
    /// The value is the address.
    AssignTo(IntKind, bool, TreeAt),
    /// The value is the address.
    UpdateAt(Change, TreeAt),
    /// It is what was loaded.
    UpdateOld(Change, u64, TreeAt),
    /// It is the right operand.
    UpdateBy {
        change: Change,
        address: u64,
        old: u64,
    },
    /// The value is the target.
    CopyTo {
        source: TreeAt,
        init: TreeAt,
    },
    /// It is the source.
    CopyBy {
        target: u64,
        init: TreeAt,
    },
    /// It is the source, and nothing is given.
    From {
        target: u64,
        init: TreeAt,
    },
}

/// What a call is at.
#[derive(Drop)]
pub enum CallFrame {
    /// The value is the next word.
    Words {
        callee: Callee,
        before: Vec<u64>,
        rest: KidsAt,
    },
    /// The value is the object of a virtual call, which has its class pointer at an offset.
    Object {
        before: Vec<u64>,
        class: u32,
        slot: u32,
        pointer: u32,
        rest: KidsAt,
    },
    /// It is the class address.
    Slot {
        before: Vec<u64>,
        class: u32,
        slot: u32,
        rest: KidsAt,
    },
    /// It is the pointer, which this tree gave.
    Pointer {
        before: Vec<u64>,
        pointer: TreeAt,
        rest: KidsAt,
    },
    /// Words that go into the frame of the function with this number, from the one with this index on.
    Passes {
        words: Vec<u64>,
        func: u32,
        from: usize,
    },
    Called {
        caller: Here,
        stops: bool,
    },
}

/// What is done for objects and their destruction.
#[derive(Drop)]
pub enum ObjectFrame {
    /// A full-expression, and the temporaries of the one around it.
    Full {
        outer: Vec<Waiting>,
    },
    /// Put these among the temporaries that wait.
    Keeps(Waiting),
    /// The objects that wait are destroyed always, or only on an exception. The newest stands last.
    Scope {
        owner: Owner,
        always: bool,
        waiting: Vec<Waiting>,
    },
    /// Put these among those that wait.
    Waits(Owner, Waiting),
    /// The value is the address.
    InitAt {
        init: TreeAt,
        destroys: KidsAt,
    },
    /// The newest, which stands last, is destroyed first.
    Cleans(Vec<Waiting>),
    /// The value is the address.
    Due(KidsAt),
    Destroys {
        number: u32,
        address: u64,
        stride: u32,
        left: u32,
    },
    Parts {
        kids: KidsAt,
        target: u64,
        source: u64,
    },
    Each {
        init: TreeAt,
        destroys: KidsAt,
        stride: u32,
        left: u32,
        target: u64,
        source: u64,
    },
}

/// What a statement is at.
#[derive(Clone, Copy)]
pub enum StatementFrame {
    Items(KidsAt),
    /// The value is the loop's test.
    Test(LoopParts),
    Body(LoopParts),
    Step(LoopParts),
    /// The value is that of a switch.
    Picks(KidsAt),
    /// The label is compared with the value.
    Compares {
        word: u64,
        label: TKind,
        behind: KidsAt,
        items: KidsAt,
    },
    /// A switch's body.
    Switches,
    /// The value is returned.
    Returning,
}

/// What a block of the TS is at.
#[derive(Clone, Copy)]
pub enum BlockFrame {
    /// The block has begun.
    Opens(Open, TreeAt),
    Within(Open),
    /// The block's last event is being made.
    Closes(Open),
}

/// What an exception or a handler is at.
#[derive(Clone, Copy)]
pub enum ExceptionFrame {
    /// The value is what is thrown, or the address of it.
    Throws {
        thrown: TreeAt,
        fields: KidsAt,
    },
    Fills {
        from: u64,
        fields: KidsAt,
        made: Exception,
    },
    /// The value is a field that was read.
    Filled {
        from: u64,
        offset: u32,
        kind: IntKind,
        fields: KidsAt,
        made: Exception,
    },
    Tries(KidsAt),
    Trying {
        exception: Exception,
        handler: TreeAt,
        others: KidsAt,
    },
    Takes {
        exception: Exception,
        base: u64,
        fields: KidsAt,
    },
    /// A field is stored.
    Taking {
        exception: Exception,
        base: u64,
        offset: u32,
        kind: IntKind,
    },
    Handling(Exception),
}

/// The ends.
#[derive(Clone, Copy)]
pub enum EndFrame {
    /// The thread's function has ended.
    Starts { main: bool },
    Halted(End),
    Ended,
}

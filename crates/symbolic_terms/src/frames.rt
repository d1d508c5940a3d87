//! What a function that runs has left to do, with terms in the place of numbers.

use crate::ids::{ExceptionId, PutsId, Terms, WordId};
use cpp_tree::below::{BinOp, IntKind};
use cpp_tree::{Builtin, TKind};
use src_frames::frames::{Change, LoopParts, Open, Owner};
use src_frames::trees::{KidsAt, TreeAt};

/// The address of a waiting object: a word, or what a tree gives.
#[derive(Clone, Copy)]
pub enum Spot {
    Word(WordId),
    Tree(TreeAt),
}

/// Objects that wait for their destruction: what gives their address, and the destructions.
#[derive(Clone, Copy)]
pub struct Waiting {
    pub address: Spot,
    pub destroys: KidsAt,
}

/// Objects that wait, the newest first.
#[derive(Clone, Copy)]
pub enum Waitings<'a> {
    Empty,
    More(Waiting, &'a Waitings<'a>),
}

/// A node is run for its value, or into the object at `target`, where what is copied comes from `source`.
#[derive(Clone, Copy)]
pub enum Way {
    Value,
    Into { target: WordId, source: WordId },
}

/// What goes outward.
#[derive(Clone, Copy)]
pub enum Exit {
    Throws(ExceptionId),
    Returns(WordId),
    Breaks,
    Continues,
}

/// What is called; the type of a pointer is that of the tree that gave it.
#[derive(Clone, Copy)]
pub enum Callee {
    Known(u32),
    /// The function in a slot, of the class at this address.
    Virtual {
        class: u32,
        slot: u32,
        address: WordId,
    },
    Pointer {
        address: WordId,
        pointer: TreeAt,
    },
    Builtin(Builtin),
}

/// What is to be done with a value, or in its place.
#[derive(Clone, Copy)]
pub enum Frame<'a> {
    /// Run the tree, whatever the value.
    Run(Way, TreeAt),
    /// A tree that is this word.
    Address(WordId),
    /// The value is dropped, and the tree is next.
    Then(Way, TreeAt),
    /// This value in place of it.
    Gives(WordId),
    /// Go outward.
    Leaves(Exit),
    Value(ValueFrame),
    Call(CallFrame<'a>),
    Object(ObjectFrame<'a>),
    Statement(StatementFrame),
    Block(BlockFrame),
    Exception(ExceptionFrame),
}

/// Frames, the innermost first.
#[derive(Clone, Copy)]
pub enum Frames<'a> {
    Empty,
    More(Frame<'a>, &'a Frames<'a>),
}

/// What is done with the value of an operand.
#[derive(Clone, Copy)]
pub enum ValueFrame {
    /// The value is the address.
    Loads(IntKind, bool),
    /// It is what was read.
    Loaded(IntKind),
    /// It is a reply, and goes on as it is.
    Replied,
    StoreTo {
        address: WordId,
        kind: IntKind,
        volatile: bool,
        answer: WordId,
    },
    Converts(IntKind),
    /// The value is the left operand.
    Right(BinOp, IntKind, TreeAt),
    Apply(BinOp, IntKind, WordId),
    Choose {
        way: Way,
        chosen: TreeAt,
        other: TreeAt,
    },
    /// The value is the address.
    AssignTo(IntKind, bool, TreeAt),
    /// The value is the address.
    UpdateAt(Change, TreeAt),
    /// It is what was loaded.
    UpdateOld(Change, WordId, TreeAt),
    /// It is the right operand.
    UpdateBy {
        change: Change,
        address: WordId,
        old: WordId,
    },
    /// The value is the target.
    CopyTo {
        source: TreeAt,
        init: TreeAt,
    },
    /// It is the source.
    CopyBy {
        target: WordId,
        init: TreeAt,
    },
    /// It is the source, and nothing is given.
    From {
        target: WordId,
        init: TreeAt,
    },
}

/// What a call is at.
#[derive(Clone, Copy)]
pub enum CallFrame<'a> {
    /// The value is the next word.
    Words {
        callee: Callee,
        before: Terms<'a>,
        rest: KidsAt,
    },
    /// The value is the object of a virtual call, which has its class pointer at an offset.
    Object {
        before: Terms<'a>,
        class: u32,
        slot: u32,
        pointer: u32,
        rest: KidsAt,
    },
    /// It is the class address.
    Slot {
        before: Terms<'a>,
        class: u32,
        slot: u32,
        rest: KidsAt,
    },
    /// It is the pointer, which this tree gave.
    Pointer {
        before: Terms<'a>,
        pointer: TreeAt,
        rest: KidsAt,
    },
    /// Words that go into the frame of the function at hand, from the one with this index on.
    Passes {
        words: Terms<'a>,
        from: usize,
    },
}

/// What is done for objects and their destruction.
#[derive(Clone, Copy)]
pub enum ObjectFrame<'a> {
    /// A full-expression, and the temporaries of the one around it, the newest first.
    Full {
        outer: Waitings<'a>,
    },
    /// Put these among the temporaries that wait.
    Keeps(Waiting),
    /// The objects that wait are destroyed always, or only on an exception. The newest stands first.
    Scope {
        owner: Owner,
        always: bool,
        waiting: Waitings<'a>,
    },
    /// Put these among those that wait.
    Waits(Owner, Waiting),
    /// The value is the address.
    InitAt {
        init: TreeAt,
        destroys: KidsAt,
    },
    /// The first of them is destroyed first.
    Cleans(Waitings<'a>),
    /// The value is the address.
    Due(KidsAt),
    Destroys {
        number: u32,
        address: WordId,
        stride: u32,
        left: WordId,
    },
    Parts {
        kids: KidsAt,
        target: WordId,
        source: WordId,
    },
    Each {
        init: TreeAt,
        destroys: KidsAt,
        stride: u32,
        left: WordId,
        target: WordId,
        source: WordId,
    },
}

/// What a statement is at.
#[derive(Clone, Copy)]
pub enum StatementFrame {
    Items(KidsAt),
    /// The value is the loop's test.
    Test(LoopParts),
    Body(LoopParts),
    Step(LoopParts),
    /// The value is that of a switch.
    Picks(KidsAt),
    /// The label is compared with the value.
    Compares {
        word: WordId,
        label: TKind,
        behind: KidsAt,
        items: KidsAt,
    },
    /// A switch's body.
    Switches,
    /// The value is returned.
    Returning,
}

/// What a block of the TS is at.
#[derive(Clone, Copy)]
pub enum BlockFrame {
    /// The block has begun.
    Opens(Open, TreeAt),
    Within(Open),
    /// The block's last event is being made.
    Closes(Open),
}

/// What an exception or a handler is at. A type is its number in the list of types of exceptions.
#[derive(Clone, Copy)]
pub enum ExceptionFrame {
    /// The value is what is thrown, or the address of it.
    Throws {
        typ: u32,
        fields: KidsAt,
    },
    Fills {
        typ: u32,
        from: WordId,
        fields: KidsAt,
        puts: PutsId,
    },
    /// The value is a field that was read.
    Filled {
        typ: u32,
        from: WordId,
        offset: u32,
        kind: IntKind,
        fields: KidsAt,
        puts: PutsId,
    },
    Tries(KidsAt),
    Trying {
        exception: ExceptionId,
        handler: TreeAt,
        others: KidsAt,
    },
    Takes {
        exception: ExceptionId,
        base: WordId,
        fields: KidsAt,
    },
    /// A field is stored.
    Taking {
        exception: ExceptionId,
        base: WordId,
        offset: u32,
        kind: IntKind,
    },
    Handling(ExceptionId),
}

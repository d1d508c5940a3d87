//! What is still to be written.

use cpp_tree::TNodeId;
use cpp_tree::below::At;
use low_code::{Jump, Owner};
use tx_code::Instr;

/// How a node is run.
#[derive(Clone, Copy, Debug, PartialEq, Eq)]
pub enum Way {
    /// For its value, which is left on top.
    Value,
    /// For what it does: nothing is left.
    Dropped,
    /// Into the object whose address lies on top and is taken.
    Into,
    /// Into that object, from one whose address lies on top of it; both are taken.
    Copying,
}

/// On which way scopes are left.
#[derive(Clone, Copy, Debug, PartialEq, Eq)]
pub enum Leaving {
    Return,
    Break,
    Continue,
}

/// A conditional, after its test: the jump that is made where the test is 0, and what is run there.
#[derive(Clone, Copy)]
pub struct Other {
    pub test: Option<Jump>,
    /// The scope of the test.
    pub scope: u32,
    pub id: TNodeId,
    pub way: Way,
    pub at: At,
}

/// A loop: its node, its scope, the index of its body and the jump over this.
#[derive(Clone, Copy)]
pub struct Turn {
    pub id: TNodeId,
    pub scope: u32,
    pub top: u32,
    pub first: Option<Jump>,
}

/// What is still to be written.
#[derive(Clone, Copy)]
pub enum Item {
    /// A node.
    Run(TNodeId, Way),
    /// An instruction that is no call.
    Put(Instr, At),
    /// A conditional's branches, where the test lies on top.
    Branch(TNodeId, Way),
    /// What is run where the test is 0, and the end of the conditional.
    Other(Other),
    /// The same, where what follows up to the end of the full-expression is written a second time.
    OtherAgain(Other),
    /// A jump leads here.
    Bind(Option<Jump>),
    /// The object of a virtual call lies on top.
    Slot(TNodeId, Way),
    /// The words of a call lie on top.
    Invoke(TNodeId, Way),
    /// What is thrown lies on top.
    Thrown(TNodeId),
    /// A temporary or an argument object is made.
    Made(TNodeId),
    /// A part is made.
    PartMade(TNodeId, Way),
    /// A variable is made.
    VariableMade(TNodeId),
    /// A part is made in a constructor; its address lies on top.
    MemberMade(TNodeId),
    /// The end of the waiting objects of an owner.
    Close(Owner, At),
    /// The same of parts, whose addresses lie on top.
    CloseParts(Way, At),
    /// An element is made, in this scope; the next one begins at the index.
    ElementMade(TNodeId, Way, u32, u32),
    /// The `Destroy`s of a node, from a kid on, at the address on top, which is taken.
    Destroy(TNodeId, u32),
    /// The loop's body is done.
    BodyDone(Turn),
    /// Its step is done.
    StepDone(Turn),
    /// Its test lies on top.
    TestDone(Turn),
    /// The value of a `switch` lies on top.
    Select(TNodeId),
    /// The scope of a `switch` or `try` is left, and its jumps lead behind it.
    Past(u32),
    /// The body of a `try` is done.
    TryDone(TNodeId, u32),
    /// A handler of the `try` with this scope; whether it can be reached.
    Handle(TNodeId, u32, bool),
    /// The body of the handler in this scope, of the `try` with the other scope, is done.
    HandlerDone(u32, u32, At),
    /// The block of this scope ends with this instruction.
    BlockDone(u32, Instr, At),
    /// Scopes are left, the innermost first. What comes behind stands in the scope with this number.
    Leave(Leaving, u32, At),
    /// The function's body is done.
    BodyEnds(At),
    /// The ways out of the scopes from this one on.
    Pads(u32),
    /// A way out is done.
    Resume(At),
}

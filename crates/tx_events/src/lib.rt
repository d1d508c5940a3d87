//! What threads of a program do to the world around them: their events, what answers these, and how a run ends.
//!
//! The definitions of what a run means stand in `specs/`: how a thread goes on and the laws of its blocks
//! (`Thread`), memory by words and by bytes (`Memory`), a block alone with its memory (`Alone`), the world in which
//! each atomic block is one indivisible step (`World`), and threads with the same events (`Same`).
//! "The TS" is ISO/IEC TS 19841:2015, and "C++14" is ISO/IEC 14882:2014.
#![tactic(auto)]

pub mod actor;
pub mod examples;
pub mod laws;
pub mod script;

pub use actor::Actor;

/// The most threads that a program may start, the first one counted.
pub const THREAD_LIMIT: u8 = 64;

/// The address of the first global.
pub const GLOBALS_START: u64 = 65_536;

/// The most bytes that all globals may take.
pub const GLOBALS_LIMIT: u32 = 1_048_576;

/// The address of the stack of thread 0.
pub const STACKS_START: u64 = 16_777_216;

/// The bytes from the start of one stack to the next.
pub const STACK_STRIDE: u64 = 131_072;

/// The bytes of one stack.
pub const STACK_SIZE: u64 = 65_536;

/// The bytes of an exception. No type that is thrown has more.
pub const EXCEPTION_SIZE: usize = 64;

/// The three kinds of atomic block (the TS, [stmt.tx]): they differ in what an exception does that leaves one.
#[derive(Clone, Copy, PartialEq, Eq, Debug)]
pub enum BlockKind {
    /// `atomic_noexcept`: such an exception ends the program as `std::abort` does.
    NoExcept,
    /// `atomic_commit`: the block commits, and unwinding goes on.
    Commit,
    /// `atomic_cancel`: where the exception's type supports cancellation, the block's effects on memory are undone
    /// and unwinding goes on; else the program ends as `std::abort` does.
    Cancel,
}

/// What this machine makes of a step that C++14 leaves undefined or that has no room.
#[derive(Clone, Copy, PartialEq, Eq, Debug)]
pub enum Trap {
    /// Signed arithmetic whose result does not fit.
    Overflow,
    /// `/` or `%` by zero.
    DivideByZero,
    /// A shift count below 0 or not below the width.
    ShiftRange,
    /// An access that is unmapped or misaligned.
    BadAddress,
    /// A frame that does not fit the thread's stack.
    StackOverflow,
    /// A call inside a transaction of a function without a safe body.
    UnsafeCall,
    /// A call or a spawn through a number that names no function of that type.
    BadCall,
    /// A call of a pure virtual function.
    BadVirtual,
    /// A spawn where as many threads as the limit were started.
    TooManyThreads,
    /// A join of thread 0, of the thread itself, or of a number that no started thread has.
    BadJoin,
}

/// How a program ends.
#[derive(Clone, Copy, PartialEq, Eq, Debug)]
pub enum End {
    /// `main` returned this value.
    Exit(i32),
    /// As by `std::abort`.
    Abort,
    /// As by `std::terminate`.
    Terminate,
    /// A step trapped.
    Trapped(Trap),
    /// The run was cut off before the program came to an end.
    StepsOut,
}

/// What a thread does next.
#[derive(Clone, Copy, PartialEq, Eq, Debug)]
pub enum Event {
    /// A step of the thread that no one else sees.
    Silent,
    /// Reads `size` bytes from `addr`, a `size` of 1, 2, 4 or 8.
    Load {
        addr: u64,
        size: u8,
        volatile: bool,
    },
    /// Writes the `size` bytes of `value`, which is below 2^(8 * size), to `addr`.
    Store {
        addr: u64,
        size: u8,
        value: u64,
        volatile: bool,
    },
    /// Writes a byte of output.
    Out {
        byte: u8,
    },
    /// Takes a byte of input.
    Inp,
    /// Starts a thread that calls the function of number `func` with `arg`.
    Spawn {
        func: u64,
        arg: i64,
    },
    /// Waits until the thread of that number has ended.
    Join {
        id: i32,
    },
    /// Enters an atomic block.
    BeginAtomic {
        kind: BlockKind,
    },
    /// Leaves the innermost block, an atomic one, by its end or by a jump.
    EndAtomic,
    /// Leaves the innermost block, an atomic one of that kind, by an exception whose type supports cancellation
    /// where `cancels` is true.
    Raise {
        kind: BlockKind,
        cancels: bool,
    },
    /// Enters a synchronized block.
    BeginSync,
    /// Leaves the innermost block, a synchronized one.
    EndSync,
    /// The thread has ended.
    Done,
    /// The program ends so.
    Stop {
        end: End,
    },
}

/// What answers an event.
#[derive(Clone, Copy, PartialEq, Eq, Debug)]
pub enum Reply {
    /// To each event but the three below.
    Nothing,
    /// To a `Load`: the bytes read, below 2^(8 * size).
    Loaded { value: u64 },
    /// To an `Inp`: the next byte of input, or -1 at its end.
    Byte { value: i32 },
    /// To a `Spawn`: the number of the thread that was started.
    Id { id: i32 },
}

/// What one turn of a thread came to.
#[derive(Clone, Copy, PartialEq, Eq, Debug)]
pub enum TurnKind {
    /// One step of the thread was done, or the program ended.
    Ran,
    /// The access waits, since that thread's transaction holds its word.
    Waited { word: u64, holder: u8 },
    /// A block waits to begin, since that thread has the synchronized lock or a transaction.
    BlockWait { holder: u8 },
    /// A join waits, since that thread has not ended.
    JoinWait { id: u8 },
    /// The thread's transaction began to give up, since that thread's transaction holds the word.
    Rolled { word: u64, holder: u8 },
    /// That word got back the bytes of a savepoint.
    Undone { word: u64 },
    /// The transaction holds that word no longer.
    Released { word: u64 },
    /// The thread was not started or has ended.
    Idle,
}

/// A part of the first bytes of the globals.
#[derive(Clone, Copy, PartialEq, Eq, Debug)]
pub struct GlobalCell {
    /// Where it lies, counted in bytes from the start of the globals.
    pub offset: u32,
    /// Its size in bytes: 1, 2, 4 or 8.
    pub size: u8,
    /// Its bytes, the least significant first.
    pub value: u64,
}

/// What the threads of a run did to memory and to one another, in the order in which it happened.
#[derive(Drop)]
pub struct Trace {
    pub items: Vec<Item>,
}

/// An item of a trace: what thread `t` did.
#[derive(Clone, Copy, PartialEq, Eq, Debug)]
pub struct Item {
    pub t: u8,
    pub what: What,
}

/// What an item of a trace says.
#[derive(Clone, Copy, PartialEq, Eq, Debug)]
pub enum What {
    /// It read these bytes.
    Read { addr: u64, size: u8 },
    /// It wrote these bytes.
    Write { addr: u64, size: u8 },
    /// It entered an outer block, one that is in no other block.
    Enter,
    /// It left its outer block.
    Leave,
    /// It started this thread.
    Spawned { child: u8 },
    /// It saw that this thread has ended.
    Joined { child: u8 },
}

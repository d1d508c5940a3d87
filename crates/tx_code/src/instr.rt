//! Instructions.

/// One instruction of a body. A thread has frames, each with an operand stack of 64-bit words; a value of an integer
/// kind is its number modulo 2^64.
///
/// Each variant names its op byte and its mnemonic, and its fields are the operands in their order. In `.. to ..` the
/// top of the stack is written last. A kind is the position of an `IntKind` in its list and an operator that of a
/// `BinOp`; pointers use `ULong`. A symbol, class or type is a number: of the name list of an object, or, in an image,
/// of its functions, classes or types, and of a global its offset from address 65,536.
#[derive(Clone, Copy, PartialEq, Eq, Debug)]
pub enum Instr {
    /// `00 push v`: .. to .. v.
    Push(u64),
    /// `01 dup`: a to a a.
    Dup,
    /// `02 drop`: a to nothing.
    Pop,
    /// `03 swap`: a b to b a.
    Swap,
    /// `04 frame n`: pushes the frame's address plus n.
    FrameAddr(u32),
    /// `05 global s`: pushes the address of a global.
    GlobalAddr(u32),
    /// `06 func s`: pushes the address of a function.
    FuncAddr(u32),
    /// `07 class s`: pushes the address of a class.
    ClassAddr(u32),
    /// `08 load k`: an address to the value of kind k there; outside a transaction.
    Load(u8),
    /// `09 store k`: an address and a value to nothing; outside a transaction.
    Store(u8),
    /// `0a tload k`: a load in a transaction.
    TLoad(u8),
    /// `0b tstore k`: a store in a transaction.
    TStore(u8),
    /// `0c vload k`: a volatile load.
    VLoad(u8),
    /// `0d vstore k`: a volatile store.
    VStore(u8),
    /// `0e bin op k`: two values of kind k to the operator's value; a shift's count is a `ULong`.
    Bin { op: u8, kind: u8 },
    /// `0f neg k`: a value of kind k to its negation.
    Neg(u8),
    /// `10 conv k k2`: a value of the first kind to its conversion to the second.
    Conv { from: u8, to: u8 },
    /// `11 jump n`: on at index n.
    Jump(u32),
    /// `12 jzero n`: takes the top, and goes on at index n where it is 0.
    JumpZero(u32),
    /// `13 call s n`: calls the plain body of a function with n words, the first of which comes to the top of its stack.
    Call { func: u32, words: u8 },
    /// `14 tcall s n`: calls the safe body.
    TCall { func: u32, words: u8 },
    /// `15 calli ty n`: calls the plain body of the function of this type whose address lies under the n words. In a
    /// safe body, or where an atomic block is open, a function without a safe body is the trap UnsafeCall.
    CallIndirect { ty: u32, words: u8 },
    /// `16 tcalli ty n`: the same, of the safe body.
    TCallIndirect { ty: u32, words: u8 },
    /// `17 slot c n`: the address of a class that is c or derived from it to that of the function in its slot n.
    Slot { class: u32, slot: u32 },
    /// `18 ret n`: hands n words, 0 or 1, to the caller.
    Ret(u8),
    /// `19 begin kind`: enters an atomic block (the TS, [stmt.tx]); 0 is noexcept, 1 commit, 2 cancel.
    Begin(u8),
    /// `1a end`: leaves the innermost block, an atomic one.
    End,
    /// `1b bsync`: enters a synchronized block (the TS, [stmt.sync]).
    BeginSync,
    /// `1c esync`: leaves the innermost block, a synchronized one.
    EndSync,
    /// `1d out`: a value to its low byte, which is written.
    Out,
    /// `1e inp`: pushes the next byte of the input, or -1 at its end.
    Inp,
    /// `1f spawn`: a function's address and its argument to the number of the thread that is started.
    Spawn,
    /// `20 join`: a thread's number to nothing.
    Join,
    /// `21 abort`: ends the program as `std::abort` does.
    Abort,
    /// `22 xnew ty`: makes an exception of a type, of zero bytes.
    NewException(u32),
    /// `23 xput n k`: takes a value of kind k into the exception, from byte n on.
    PutException { offset: u8, kind: u8 },
    /// `24 throw`: unwinds with the exception that was made.
    Throw,
    /// `25 rethrow`: unwinds with the exception of the handler that was entered last.
    Rethrow,
    /// `26 xget n k`: pushes the value of kind k at byte n of the exception of that handler.
    GetException { offset: u8, kind: u8 },
    /// `27 xdone`: leaves that handler.
    EndHandler,
    /// `28 resume`: goes on unwinding.
    Resume,
    /// `29 over`: a b to a b a.
    Over,
}

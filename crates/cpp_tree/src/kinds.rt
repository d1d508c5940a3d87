// What a typed node is.

use tx_events::BlockKind;
use tx_ints::{BinOp, IntKind};

/// A function that every unit knows without a declaration of its own.
#[derive(Clone, Copy, Debug, PartialEq, Eq)]
pub enum Builtin {
    /// `putchar`. Kids: the character.
    PutChar,
    /// `getchar`. No kids.
    GetChar,
    /// `__txcc_spawn`. Kids: the function, its argument.
    Spawn,
    /// `__txcc_join`. Kids: the thread's number.
    Join,
    /// `std::abort`. No kids.
    Abort,
}

/// What a typed node is, and its kids, in order: `x?` is at most one, `x*` any number and `x+` at least one.
///
/// In a kind, `place` is an index into the frame of the function, `func` and `global` are indexes into the lists of
/// the unit, and `class` is one into the classes of the program. Offsets, strides and sizes are in bytes.
///
/// An expression is run for its value, a word. An initialiser is run into an object, and an expression of class
/// type that stands for no object (a prvalue, C++14 3.10) is one. A statement is run for its effects.
#[derive(Clone, Copy, Debug, PartialEq, Eq)]
pub enum TKind {
    // Expressions.
    /// A word.
    Literal {
        word: u64,
    },
    /// The address of an item of the frame.
    Local {
        place: u32,
    },
    /// The address of a global, or of a string's characters.
    Global {
        global: u32,
    },
    /// The address of a function.
    Function {
        func: u32,
    },
    /// The number that an object's class pointer has: it tells the class when a virtual function is called.
    ClassTable {
        class: u32,
    },
    /// Reads a scalar (C++14 4.1). As an lvalue: reads the address that a reference, or another slot, holds.
    /// Kids: the address.
    Load {
        kind: IntKind,
        volatile: bool,
    },
    /// Converts between integer kinds (C++14 4.7), to `bool` by a comparison with 0 (4.12). Kids: a value.
    Convert {
        to: IntKind,
    },
    /// The same word with another type or category. Kids: an expression.
    Retype,
    /// An operator (C++14 5.6 to 5.13). Kids: left, right.
    Binary {
        op: BinOp,
        kind: IntKind,
    },
    /// `? :`, `&&`, `||` and `if` (C++14 5.14 to 5.16, 6.4.1). Kids: the test, what is run where it is not 0,
    /// what is run where it is 0.
    Conditional,
    /// C++14 5.18. Kids: an expression whose value is dropped, an expression.
    Comma,
    /// `=` on a scalar (C++14 5.17). Kids: the address, the value.
    Assign {
        kind: IntKind,
        volatile: bool,
    },
    /// `op=`, `++` and `--` (C++14 5.17, 5.2.6, 5.3.2). The operand is stored as `stored` and the operator works
    /// in `operation`; `old` says that the value is that of before. Kids: the address, the right operand.
    Update {
        op: BinOp,
        stored: IntKind,
        operation: IntKind,
        volatile: bool,
        old: bool,
    },
    /// The implicit copy assignment of a class (C++14 12.8). Kids: the target, the source, an initialiser.
    CopyAssign,
    /// An object of the frame that lives until the end of the full-expression (C++14 12.2), or, where it is an
    /// argument of class type, until the call is done. Kids: an initialiser, Destroy*.
    Materialize {
        place: u32,
        argument: bool,
    },
    /// An expression at whose end its temporaries are destroyed (C++14 12.2). Kids: an expression.
    FullExpression,
    /// A call by name (C++14 5.2.2). Kids: the words that are passed.
    Call {
        func: u32,
    },
    /// A call of a virtual function (C++14 10.3): of `func` as its class `class` names it in the slot `slot`, where
    /// objects of that class have their class pointer at `pointer`. Kids: the object, the other words.
    VirtualCall {
        func: u32,
        class: u32,
        slot: u32,
        pointer: u32,
    },
    /// A call through a pointer. Kids: the pointer, the words that are passed.
    PointerCall,
    /// A call of a function that needs no declaration. Kids: its arguments.
    Builtin {
        which: Builtin,
    },
    /// C++14 15.1. Kids: a value, or an object of class type, and Field*.
    Throw,
    /// `throw;`
    Rethrow,

    // Initialisers.
    /// A scalar, or the address in a reference. Kids: a value.
    Store {
        kind: IntKind,
        volatile: bool,
    },
    /// A scalar, from the same place of the object that is copied.
    CopyScalar {
        kind: IntKind,
        volatile: bool,
    },
    /// A class object, by a constructor. Kids: the words behind `this`.
    Construct {
        func: u32,
    },
    /// A class object, by its copy constructor, from the object that is copied.
    CopyConstruct {
        func: u32,
    },
    /// A copy. Kids: the object that is copied, an initialiser.
    CopyFrom,
    /// A class or an array, part by part. Kids: Piece*.
    Pieces,
    /// A part. Kids: an initialiser, Destroy*.
    Piece {
        offset: u32,
    },
    /// An array of `count` elements that are built alike. Kids: an initialiser, Destroy*.
    Elements {
        count: u32,
        stride: u32,
    },

    // Statements.
    /// A compound statement (C++14 6.3). Where `subobjects`, what it built is destroyed only when an exception
    /// leaves it: the body of a constructor. Kids: statement*.
    Block {
        subobjects: bool,
    },
    /// A variable, or a base or member in a constructor. Kids: the address, an initialiser, Destroy*.
    Init,
    /// A base or member of an object that is being destroyed: its destructions are due at the end of the block.
    /// Kids: the address, Destroy*.
    Defer,
    /// `while`, `for` and, where not `test_first`, `do` (C++14 6.5). Kids: the test, the body, the step.
    Loop {
        test_first: bool,
    },
    /// C++14 6.4.2. Kids: the value, statement*.
    Switch,
    /// Among the statements of a switch.
    Case {
        word: u64,
    },
    /// Among the statements of a switch.
    Default,
    Break,
    Continue,
    /// C++14 6.6.3. Kids: a value?.
    Return,
    /// C++14 clause 15. Kids: the body, Handler+.
    Try,
    /// A handler of its node's type, of `void` for `...` (C++14 15.3); the exception's bytes go to `place` where it
    /// has a name. Kids: the body, Field*.
    Handler {
        place: Option<u32>,
    },
    /// An atomic block (the TS, [stmt.tx]). Kids: the body.
    Atomic {
        kind: BlockKind,
    },
    /// A synchronized block (the TS, [stmt.sync]). Kids: the body.
    Synchronized,

    // Parts of lists of kids.
    /// Calls of the destructor `func` for `count` objects at `offset` and on, the last one first.
    Destroy {
        func: u32,
        offset: u32,
        count: u32,
        stride: u32,
    },
    /// A scalar in an exception's bytes.
    Field {
        offset: u32,
        kind: IntKind,
    },
}

// Why units have no typed program, and why a part of one is unsafe.

use cpp_layout::below::At;
use std::alloc::AllocError;
use thiserror::Error;

/// A rule of the language, C++14 cut to a subset, that a place in a source breaks.
#[derive(Clone, Copy, Debug, PartialEq, Eq)]
pub enum IllRule {
    UnknownName,
    Redeclared,
    /// Two declarations of one name have types that do not agree.
    TypeDiffers,
    /// Two declarations of a function differ only in `transaction_safe`.
    SafetyDiffers,
    BadDeclaration,
    NotConstant,
    NoConversion,
    /// No candidate of an overloaded name takes the arguments.
    NoViable,
    /// Several candidates do, and none is best.
    Ambiguous,
    NotLvalue,
    /// What is changed is `const`.
    ConstTarget,
    BadOperand,
    Incomplete,
    /// An object of a class with a pure virtual function.
    AbstractObject,
    NoDefault,
    NoCopy,
    BadInit,
    Narrowing,
    NoMember,
    NotCallable,
    BadReturn,
    /// `break` or `continue` outside what it leaves.
    BadBreak,
    BadThrow,
    BadCatch,
    NotTriviallyCopyable,
    Capture,
    BadCase,
    /// A label behind a declaration, in its scope, that has to be executed.
    JumpPastInit,
    BadMain,
    /// A form of C++14 that the subset leaves out.
    OutOfProfile,
}

/// A rule on overriding functions and final classes (C++14 10.3, clause 9) and on their safety (the TS,
/// [class.virtual]).
#[derive(Clone, Copy, Debug, PartialEq, Eq)]
pub enum OverrideRule {
    OverrideNothing,
    OverridesFinal,
    BaseFinal,
    ReturnDiffers,
    LooserNoexcept,
    DynamicOverSafe,
    DynamicNotVirtual,
}

/// Why a part of a transaction is unsafe (the TS, [dcl.fct.def.tx] and [class.virtual]).
#[derive(Clone, Copy, Debug, PartialEq, Eq)]
pub enum UnsafeReason {
    VolatileRead,
    /// Also the construction, copy or assignment of a class object that has a volatile part.
    VolatileWrite,
    VolatileTemp,
    VolatileLocal,
    VolatileParam,
    /// A call by name, a virtual one too, or an implicit one.
    CallsUnsafe,
    /// A call through a pointer.
    CallsUnsafePointer,
}

/// A limit on what a unit may ask for.
#[derive(Clone, Copy, Debug, PartialEq, Eq)]
pub enum LimitKind {
    /// 1,048,576 bytes for a type, a type's spelling, a symbol or a definition's text.
    Size,
    /// 65,536 bytes for a function's frame.
    Frame,
    /// 64 parameters.
    Params,
    /// 64 bytes for an exception.
    Exception,
}

/// Why units have no typed program.
#[derive(Clone, Copy, Debug, PartialEq, Eq, Error)]
pub enum ElabFault {
    #[error("ill-formed: {rule:?}")]
    Ill { at: At, rule: IllRule },
    #[error("ill-formed: {rule:?}")]
    Override { at: At, rule: OverrideRule },
    /// A label of a `switch` inside a synchronized or atomic block (the TS, [stmt.sync], [stmt.tx]).
    #[error("a jump into a block")]
    JumpIntoBlock { at: At },
    #[error("past a limit: {which:?}")]
    Limit { at: At, which: LimitKind },
    #[error("out of memory")]
    Memory,
}

impl From<AllocError> for ElabFault {
    ghost use Rattle.std.specs.Prelude.{◌≡◌};
    ghost use Rattle.cpp_tree.specs.declared.faults.ElabFault.TheVariants.{Memory};

    ghost from_gives = { λ _ fault. fault ≡ Memory };

    fn from(_error: AllocError) -> ElabFault {
        ElabFault::Memory
    }
}

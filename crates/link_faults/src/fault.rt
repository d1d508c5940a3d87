//! Why objects can't be linked.
ghost use Rattle.std.specs.Prelude.{◌≡◌};
ghost use Rattle.link_faults.specs.declared.fault.LinkFault.TheVariants.{Memory};

use std::alloc::{AllocError, AllocFailed};
use thiserror::Error;

/// Why objects can't be linked. The faults are tried in this order, and within one the least symbol by bytes is named.
#[derive(Debug, Drop, Error)]
pub enum LinkFault {
    /// Two objects define the symbol, it is internal in neither, and external in at least one (C++14 3.2).
    #[error("a symbol is defined twice")]
    Twice { symbol: Vec<u8> },
    /// Two objects differ in their class records of this name, in their definition texts of this inline function, or in
    /// their types of this symbol, which is internal in neither (C++14 3.2).
    #[error("two objects differ in what they say of a symbol")]
    OdrDiffers { symbol: Vec<u8> },
    /// An object has an undefined entry of the symbol, and the entry is internal or no object has the definition; or a
    /// slot or a cell names the symbol, and its object has no entry of it.
    #[error("a symbol is not defined")]
    Undefined { symbol: Vec<u8> },
    /// An object wants the function safe, and the definition that is kept has no safe body (the TS, [dcl.attr.tx]).
    #[error("a function that is called in a transaction has no safe body")]
    UnsafeSymbol { symbol: Vec<u8> },
    /// No object defines an external `main()` of type `int()` (C++14 3.6.1).
    #[error("there is no main()")]
    NoMain,
    /// The globals take more than 1,048,576 bytes.
    #[error("the globals take {size} bytes")]
    Globals { size: u64 },
    #[error("out of memory")]
    Memory,
}

impl From<AllocError> for LinkFault {
    ghost from_gives = { λ _ e. e ≡ Memory };

    fn from(_e: AllocError) -> LinkFault {
        LinkFault::Memory
    }
}

impl<T: Drop> From<AllocFailed<T>> for LinkFault {
    ghost from_gives = { λ _ e. e ≡ Memory };

    fn from(_e: AllocFailed<T>) -> LinkFault {
        LinkFault::Memory
    }
}

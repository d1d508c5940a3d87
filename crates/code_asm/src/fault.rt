//! Why a text is no object.
ghost use Rattle.std.specs.Prelude.{◌≡◌};
ghost use Rattle.code_asm.specs.declared.fault.Stop.TheVariants.{Memory};

use std::alloc::{AllocError, AllocFailed};
use thiserror::Error;

/// Why a text is no object.
#[derive(Debug, Drop, Error)]
pub enum AsmFault {
    /// The text writes no object. `line` is the number, counted from 1, of the first line that has not its form or its
    /// place, or breaks a condition of objects with the lines before it. A condition on the whole object, such as an unused
    /// name, stands at `end`. A text that ends too early has the number behind that of its last line.
    #[error("no object: line {line}")]
    BadAsm { line: u64 },
    #[error("out of memory")]
    Memory,
}

/// Why a line was not taken.
#[derive(Debug, Drop)]
pub(crate) enum Stop {
    Memory,
    /// It has not its place, or breaks a condition with the lines before it.
    Wrong,
}

impl From<AllocError> for Stop {
    ghost from_gives = { λ _ e. e ≡ Memory };

    fn from(_e: AllocError) -> Stop {
        Stop::Memory
    }
}

impl<T: Drop> From<AllocFailed<T>> for Stop {
    ghost from_gives = { λ _ e. e ≡ Memory };

    fn from(_e: AllocFailed<T>) -> Stop {
        Stop::Memory
    }
}

//! Why a term is not made.

ghost use Rattle.std.specs.Prelude.{◌≡◌};
ghost use Rattle.symbolic_terms.specs.declared.refusal.Refusal.TheVariants.{Memory};

use std::alloc::{AllocError, AllocFailed};
use thiserror::Error;

/// Why there is no answer.
#[derive(Debug, Drop, Error)]
pub enum Refusal {
    #[error("out of memory")]
    Memory,
    /// A number that 64 bits, or the number of a variable that 32 bits do not hold.
    #[error("a number is too large")]
    Beyond,
    /// A type of exceptions that is none of those that were told.
    #[error("a type of exceptions was not told")]
    Untold,
    /// A number of a word or of an exception that was not given.
    #[error("a word was not made")]
    NotMade,
}

impl From<AllocError> for Refusal {
    ghost from_gives = { λ _ e. e ≡ Memory };

    fn from(_: AllocError) -> Self {
        Refusal::Memory
    }
}

impl<T: Drop> From<AllocFailed<T>> for Refusal {
    ghost from_gives = { λ _ e. e ≡ Memory };

    fn from(_: AllocFailed<T>) -> Self {
        Refusal::Memory
    }
}

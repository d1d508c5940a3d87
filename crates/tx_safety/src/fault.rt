// Why a program is refused.

use cpp_tree::UnsafeReason;
use cpp_tree::below::At;
use std::alloc::AllocError;
use thiserror::Error;

/// Why a program is refused.
#[derive(Clone, Copy, Debug, PartialEq, Eq, Error)]
pub enum SafetyFault {
    /// The first unsafe node of an atomic block, or of a function that has to be safe, with one of its reasons.
    #[error("transaction-unsafe: {reason:?}")]
    Unsafe { at: At, reason: UnsafeReason },
    #[error("out of memory")]
    Memory,
}

impl From<AllocError> for SafetyFault {
    ghost use Rattle.std.specs.Prelude.{◌≡◌};
    ghost use Rattle.tx_safety.specs.declared.fault.SafetyFault.TheVariants.{Memory};

    ghost from_gives = { λ _ fault. fault ≡ Memory };

    fn from(_error: AllocError) -> SafetyFault {
        SafetyFault::Memory
    }
}

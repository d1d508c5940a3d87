//! Why bytes are no object.
ghost use Rattle.std.specs.Prelude.{◌≡◌};
ghost use Rattle.object_file.specs.declared.fault.ReadError.TheVariants.{Memory};

use std::alloc::{AllocError, AllocFailed};
use thiserror::Error;

/// Why bytes are no object.
#[derive(Debug, Drop, Error)]
pub enum ObjectFault {
    /// No object is so spelled. `at` is the first byte of the first wrong field, in bytes from the start, or the length
    /// where the bytes end too early. A name that is not used, and a base that is no class of the list or whose chain is
    /// a circle, are wrong only where all else is right.
    #[error("no object: the field at byte {at}")]
    BadObject { at: u64 },
    #[error("out of memory")]
    Memory,
}

/// Why a field was not read.
#[derive(Debug, Drop)]
pub(crate) enum ReadError {
    Memory,
    /// So many bytes are left from the first wrong field on.
    Wrong(usize),
}

impl From<AllocError> for ReadError {
    ghost from_gives = { λ _ e. e ≡ Memory };

    fn from(_e: AllocError) -> ReadError {
        ReadError::Memory
    }
}

impl<T: Drop> From<AllocFailed<T>> for ReadError {
    ghost from_gives = { λ _ e. e ≡ Memory };

    fn from(_e: AllocFailed<T>) -> ReadError {
        ReadError::Memory
    }
}

// Why a call of a host has no answer.

use thiserror::Error;

/// Why a read has no answer.
#[derive(Clone, Copy, Debug, PartialEq, Eq, Error)]
pub enum ReadFault {
    /// The host could not read, and counted a fault.
    #[error("the file cannot be read")]
    Failed,
    /// Memory is missing. Nothing was read.
    #[error("out of memory")]
    Memory,
}

/// Why a write was not made whole.
#[derive(Clone, Copy, Debug, PartialEq, Eq, Error)]
pub enum WriteFault {
    /// The host could not write all of the bytes, and counted a fault.
    #[error("the bytes cannot be written")]
    Failed,
    /// Memory is missing. Nothing was written.
    #[error("out of memory")]
    Memory,
}

//! Why bytes could not be decoded.

ghost use Rattle.std.specs.Prelude.{◌≡◌};
ghost use Rattle.event_records.specs.declared.fault.ReadError.TheVariants.{NoMemory};

use std::alloc::{AllocError, AllocFailed};
use thiserror::Error;

/// What is wrong with bytes that are no record: the first fault from left to right.
#[derive(Clone, Copy, Debug, PartialEq, Eq, Error)]
pub enum RecordFault {
    /// The bytes end within a record.
    #[error("the bytes end within a record")]
    Truncated,
    /// A field has a value that no record has.
    #[error("a field has a value that no record has")]
    Unknown,
}

/// Why records could not be read.
#[derive(Clone, Copy, Debug, PartialEq, Eq, Error)]
pub enum ReadError {
    /// An allocation was refused.
    #[error("out of memory")]
    NoMemory,
    /// The bytes are no record.
    #[error("{0}")]
    Fault(RecordFault),
}

impl From<AllocError> for ReadError {
    ghost from_gives = { λ _ e. e ≡ NoMemory };

    fn from(_: AllocError) -> ReadError {
        ReadError::NoMemory
    }
}

impl<T: Drop> From<AllocFailed<T>> for ReadError {
    ghost from_gives = { λ _ e. e ≡ NoMemory };

    fn from(_: AllocFailed<T>) -> ReadError {
        ReadError::NoMemory
    }
}

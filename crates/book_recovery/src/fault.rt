//! Why a book can't be recovered.

ghost use Rattle.std.specs.Prelude.{◌≡◌};
ghost use Rattle.book_recovery.specs.declared.fault.RecoveryError.TheVariants.{NoMemory};

use book_replay::ReplayFault;
use event_records::RecordFault;
use std::alloc::{AllocError, AllocFailed};
use thiserror::Error;

/// Why a file doesn't begin as one of a store does.
#[derive(Clone, Copy, Debug, PartialEq, Eq, Error)]
pub enum HeaderFault {
    /// There is no record, or the first begins neither as a header does nor as a preface.
    #[error("the file doesn't begin with the header of a message store")]
    NoHeader,
    /// It has another format than this program reads.
    #[error("the file has format {0}, and this program reads formats 1 and 2")]
    OtherFormat(u32),
    /// It ends too early or too late, or a field has a value that no header has.
    #[error("the header of the file is damaged")]
    Damaged,
}

/// What is wrong with a record at which a recovery stops.
#[derive(Clone, Copy, Debug, PartialEq, Eq, Error)]
pub enum RecordProblem {
    /// The bytes are no record.
    #[error("the record is damaged: {0}")]
    Damaged(RecordFault),
    /// Bytes follow the record.
    #[error("the record is damaged: bytes follow it")]
    Trailing,
    /// The book can't take the record, or memory was refused.
    #[error("{0}")]
    Replay(ReplayFault),
}

/// The record at which a recovery stopped, and why.
#[derive(Clone, Copy, Debug, PartialEq, Eq, Error)]
#[error("record {}: {problem}; version {version} began the file", .index.saturating_add(1))]
pub struct Stop<'a> {
    /// The index of the record in the file, counted from 0 for the header. The text counts from 1.
    pub index: usize,
    /// What is wrong with it.
    pub problem: RecordProblem,
    /// The version of the program that began the file.
    pub version: &'a str,
}

/// Why no book is recovered.
#[derive(Clone, Copy, Debug, PartialEq, Eq, Error)]
pub enum RecoveryError<'a> {
    /// An allocation was refused.
    #[error("out of memory")]
    NoMemory,
    /// The first record is neither a header nor a preface.
    #[error("{0}")]
    Header(HeaderFault),
    /// The first record is a preface, with no opening that can be read and from which a book can go on.
    #[error("the opening of the file can't be read, or no book can go on from it")]
    NoOpening,
    /// The document in the header is no plan.
    #[error("the plan in the header of the file can't be read")]
    NoPlan,
    /// It stopped at a record.
    #[error("{0}")]
    Stopped(Stop<'a>),
}

impl From<AllocError> for RecoveryError<'_> {
    ghost from_gives = { λ _ e. e ≡ NoMemory };

    fn from(_: AllocError) -> Self {
        RecoveryError::NoMemory
    }
}

impl<T: Drop> From<AllocFailed<T>> for RecoveryError<'_> {
    ghost from_gives = { λ _ e. e ≡ NoMemory };

    fn from(_: AllocFailed<T>) -> Self {
        RecoveryError::NoMemory
    }
}

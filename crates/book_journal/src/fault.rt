//! Why a step of a journal wasn't made.

ghost use Rattle.std.specs.Prelude.{◌≡◌, ◌≢◌, ◌↔◌, IsTrue};
ghost use Rattle.book_journal.specs.declared.fault.JournalError.TheVariants.{NoMemory, Pruned};

use book_lock::CopyRefusal;
use sqlite_trees::error::StoreError;
use std::alloc::{AllocError, AllocFailed};
use thiserror::Error;

/// Why nothing was published.
#[derive(Clone, Copy, Debug, PartialEq, Eq, Error)]
pub enum JournalError {
    /// Memory was refused before anything was written. The step may be made again.
    #[error("out of memory")]
    NoMemory,
    /// The disk has no room for what was to be written, and what was written of it was dropped. The step may be made again.
    #[error("no room on the disk of the store")]
    NoRoom,
    /// Changes were folded before the journal had copied them. They can't be written any more.
    #[error("changes of the book were pruned before they were written to the store")]
    Pruned,
    /// The store failed, and nothing more is written to it: what is held now is found when its file is opened again.
    #[error("the store of the book failed: {0}")]
    Store(StoreError),
}

impl JournalError {
    /// Whether no later step can succeed, so that the journal of the book has failed.
    pub fn is_final(self) -> bool
        ensures { IsTrue result ↔ (self ≢ JournalError.NoMemory) × (self ≢ JournalError.NoRoom) }
    {
        !matches!(self, JournalError::NoMemory | JournalError::NoRoom)
    }
}

impl From<AllocError> for JournalError {
    ghost from_gives = { λ _ e. e ≡ NoMemory };

    fn from(_: AllocError) -> JournalError {
        JournalError::NoMemory
    }
}

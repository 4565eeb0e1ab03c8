//! Why no book goes on from an opening.

ghost use Rattle.std.specs.Prelude.{◌≡◌};
ghost use Rattle.book_resume.specs.declared.fault.ResumeFault.TheVariants.{NoMemory};

use std::alloc::{AllocError, AllocFailed};
use thiserror::Error;

/// Why no book goes on from an opening.
#[derive(Clone, Copy, Debug, PartialEq, Eq, Error)]
pub enum ResumeFault {
    /// An allocation was refused.
    #[error("out of memory")]
    NoMemory,
    /// The opening contradicts itself, or isn't one from which a book can go on.
    #[error("no book can go on from this opening")]
    NotGood,
}

impl From<AllocError> for ResumeFault {
    ghost from_gives = { λ _ e. e ≡ NoMemory };

    fn from(_: AllocError) -> ResumeFault {
        ResumeFault::NoMemory
    }
}

impl<T: Drop> From<AllocFailed<T>> for ResumeFault {
    ghost from_gives = { λ _ e. e ≡ NoMemory };

    fn from(_: AllocFailed<T>) -> ResumeFault {
        ResumeFault::NoMemory
    }
}

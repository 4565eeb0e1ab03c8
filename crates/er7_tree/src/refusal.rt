//! Why a text, a path or a change is refused, and the number of each reason.

use std::alloc::{AllocError, AllocFailed};
use thiserror::Error;

/// Why a text or a path can't be read, or a message can't be changed.
#[derive(Clone, Copy, Debug, PartialEq, Eq, Error)]
pub enum Refusal {
    /// The text doesn't begin with a message header segment, MSH.
    #[error("the text has no header segment")]
    NoHeader,
    /// The header declares no field separator and encoding characters that may be used (HL7 v2.5.1, 2.5.4).
    #[error("the header declares bad delimiters")]
    BadDelimiters,
    /// The segment at this index, counted from 1, has a bad name or is a second header (HL7 v2.5.1, 2.5.2).
    #[error("segment {0} has a bad name")]
    BadSegmentName(usize),
    /// The text has more segments than [`MAX_SEGMENTS`](crate::MAX_SEGMENTS).
    #[error("the text has too many segments")]
    TooManySegments,
    /// The path can't be read, or names no piece that this change may touch.
    #[error("the path is no path for this")]
    BadPath,
    /// The message has no such segment.
    #[error("the message has no such segment")]
    NoSuchSegment,
    /// A growth was refused.
    #[error("no memory")]
    NoMemory,
}

impl Refusal {
    ghost use Rattle.std.specs.Prelude.{◌≡◌};
    ghost use Rattle.er7_tree.specs.inner.Code.{code_of};

    /// The number of the refusal, 1 to 7, as it is given where no name can be.
    pub fn code(&self) -> u32
        ensures { result ≡ code_of self.now }
    {
        match self {
            Refusal::NoHeader => 1,
            Refusal::BadDelimiters => 2,
            Refusal::BadSegmentName(_) => 3,
            Refusal::TooManySegments => 4,
            Refusal::BadPath => 5,
            Refusal::NoSuchSegment => 6,
            Refusal::NoMemory => 7,
        }
    }
}

impl From<AllocError> for Refusal {
    ghost use Rattle.std.specs.Prelude.{◌≡◌};
    ghost use Rattle.er7_tree.specs.declared.refusal.Refusal.TheVariants.{NoMemory};

    ghost from_gives = { λ _ e. e ≡ NoMemory };

    fn from(_: AllocError) -> Refusal {
        Refusal::NoMemory
    }
}

impl<T: Drop> From<AllocFailed<T>> for Refusal {
    ghost use Rattle.std.specs.Prelude.{◌≡◌};
    ghost use Rattle.er7_tree.specs.declared.refusal.Refusal.TheVariants.{NoMemory};

    ghost from_gives = { λ _ e. e ≡ NoMemory };

    fn from(_: AllocFailed<T>) -> Refusal {
        Refusal::NoMemory
    }
}

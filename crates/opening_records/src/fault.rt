//! Why an opening could not be written or read.

ghost use Rattle.std.specs.Prelude.{◌≡◌};
ghost use Rattle.opening_records.specs.declared.fault.OpeningFault.TheVariants.{NoMemory};
ghost use Rattle.opening_records.specs.inner.Faults.{fault_at, reason_of};

use event_records::{ReadError, RecordFault};
use std::alloc::{AllocError, AllocFailed};
use thiserror::Error;

/// Why bytes are no opening.
#[derive(Clone, Copy, Debug, PartialEq, Eq, Error)]
pub enum Reason {
    /// The bytes end within the opening.
    #[error("the bytes end within the opening")]
    Truncated,
    /// A field has a value that no opening of this format has.
    #[error("a field has a value that no opening of this format has")]
    Unknown,
    /// There are bytes behind the opening.
    #[error("there are bytes behind the opening")]
    Longer,
    /// The document is no plan.
    #[error("the document is no plan")]
    NotAPlan,
    /// The counters are those of no book.
    #[error("the counters are those of no book")]
    Counters,
    /// The indices of the arrivals don't increase.
    #[error("the indices of the arrivals don't increase")]
    Order,
}

/// Why an opening could not be written or read.
#[derive(Clone, Copy, Debug, PartialEq, Eq, Error)]
pub enum OpeningFault {
    /// An allocation was refused.
    #[error("out of memory")]
    NoMemory,
    /// A text of the opening has 4 GiB or more, or a list of it 2^32 elements or more.
    #[error("a text or a list of the opening is too long")]
    TooLong,
    /// The bytes are no opening: `at` is the offset of the part that isn't one of an opening.
    #[error("no opening: {reason} (in the part at byte {at})")]
    NotAnOpening {
        /// The offset of the part.
        at: usize,
        /// What is wrong with it.
        reason: Reason,
    },
}

impl From<AllocError> for OpeningFault {
    ghost from_gives = { λ _ e. e ≡ NoMemory };

    fn from(_: AllocError) -> OpeningFault {
        OpeningFault::NoMemory
    }
}

impl<T: Drop> From<AllocFailed<T>> for OpeningFault {
    ghost from_gives = { λ _ e. e ≡ NoMemory };

    fn from(_: AllocFailed<T>) -> OpeningFault {
        OpeningFault::NoMemory
    }
}

/// Why decoding stopped, as the reason why bytes are no opening.
fn reason_of(fault: RecordFault) -> Reason
    ensures { result ≡ reason_of fault }
{
    match fault {
        RecordFault::Truncated => Reason::Truncated,
        RecordFault::Unknown => Reason::Unknown,
    }
}

/// The fault of the part at this offset.
pub(crate) fn fault_at(at: usize, error: ReadError) -> OpeningFault
    ensures { result ≡ fault_at at error }
{
    match error {
        ReadError::NoMemory => OpeningFault::NoMemory,
        ReadError::Fault(fault) => OpeningFault::NotAnOpening {
            at,
            reason: reason_of(fault),
        },
    }
}

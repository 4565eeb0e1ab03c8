//! The receipt of a booked arrival.

ghost use Rattle.std.specs.Prelude.{◌≡◌};
ghost use Rattle.book_core.specs.inner.Refusing.{not_booked_code};

use event_log::Told;
use judge_core::Text;
use std::alloc::{AllocError, AllocFailed};
use thiserror::Error;

/// What the history has of an arrival, and its index there.
#[derive(Drop)]
pub struct Receipt {
    /// The index of its entry, counted from 0.
    pub entry: usize,
    /// The connection over which it arrived.
    pub conn: u32,
    /// The channel on which it arrived, by its index in the plan.
    pub channel: u32,
    /// Its bytes, which the entry shares.
    pub raw: Text,
    /// Its answer, as it is acknowledged to its sender.
    pub told: Told,
}

/// Why an arrival was not booked.
#[derive(Clone, Copy, Debug, PartialEq, Eq, Error)]
pub enum NotBooked {
    /// A growth was refused.
    #[error("out of memory")]
    NoMemory,
    /// The book holds as many entries as it may.
    #[error("the book is full")]
    Full,
    /// It was judged by another plan than the one in force.
    #[error("the plan has changed")]
    PlanChanged,
}

impl NotBooked {
    /// The number of the refusal: 1 for `NoMemory`, 2 for `Full`, 3 for `PlanChanged`.
    pub fn code(self) -> u32
        ensures { result ≡ not_booked_code self }
    {
        match self {
            NotBooked::NoMemory => 1,
            NotBooked::Full => 2,
            NotBooked::PlanChanged => 3,
        }
    }
}

impl From<AllocError> for NotBooked {
    ghost use Rattle.std.specs.Prelude.{◌≡◌};
    ghost use Rattle.book_core.specs.declared.receipt.NotBooked.TheVariants.{NoMemory};

    ghost from_gives = { λ _ e. e ≡ NoMemory };

    fn from(_: AllocError) -> NotBooked {
        NotBooked::NoMemory
    }
}

impl<T: Drop> From<AllocFailed<T>> for NotBooked {
    ghost use Rattle.std.specs.Prelude.{◌≡◌};
    ghost use Rattle.book_core.specs.declared.receipt.NotBooked.TheVariants.{NoMemory};

    ghost from_gives = { λ _ e. e ≡ NoMemory };

    fn from(_: AllocFailed<T>) -> NotBooked {
        NotBooked::NoMemory
    }
}

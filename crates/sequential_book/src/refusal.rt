//! Why the plain engine booked nothing.

use dest_queue::SettleRefusal;
use std::alloc::AllocError;
use thiserror::Error;

/// Why an arrival was not booked.
#[derive(Clone, Copy, Debug, PartialEq, Eq, Error)]
pub enum NotBooked {
    /// There is no room for it and its deliveries.
    #[error("the book is full")]
    Full,
    /// Memory was refused.
    #[error("out of memory")]
    NoMemory,
}

/// Why an attempt was not settled.
#[derive(Clone, Copy, Debug, PartialEq, Eq, Error)]
pub enum NotSettled {
    /// The attempt is not under way.
    #[error("{0}")]
    Refused(SettleRefusal),
    /// Memory was refused.
    #[error("out of memory")]
    NoMemory,
}

impl From<AllocError> for NotBooked {
    ghost use Rattle.std.specs.Prelude.{◌≡◌};
    ghost use Rattle.sequential_book.specs.declared.refusal.NotBooked.TheVariants.{NoMemory};

    ghost from_gives = { λ _ e. e ≡ NoMemory };

    fn from(_: AllocError) -> NotBooked {
        NotBooked::NoMemory
    }
}

impl From<AllocError> for NotSettled {
    ghost use Rattle.std.specs.Prelude.{◌≡◌};
    ghost use Rattle.sequential_book.specs.declared.refusal.NotSettled.TheVariants.{NoMemory};

    ghost from_gives = { λ _ e. e ≡ NoMemory };

    fn from(_: AllocError) -> NotSettled {
        NotSettled::NoMemory
    }
}

impl From<SettleRefusal> for NotSettled {
    ghost use Rattle.std.specs.Prelude.{◌≡◌};
    ghost use Rattle.sequential_book.specs.declared.refusal.NotSettled.TheVariants.{Refused};

    ghost from_gives = { λ refusal e. e ≡ Refused refusal };

    fn from(refusal: SettleRefusal) -> NotSettled {
        NotSettled::Refused(refusal)
    }
}

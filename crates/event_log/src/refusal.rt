//! Why an event was not booked.

ghost use Rattle.std.specs.Prelude.{◌≡◌};
ghost use Rattle.event_log.specs.inner.Answers.{cancel_refusal_code, take_refusal_code};
ghost use Rattle.event_log.specs.inner.Deployment.{deploy_refusal_code};
ghost use Rattle.event_log.specs.inner.Folding.{prune_refusal_code};

use std::alloc::AllocError;
use thiserror::Error;

/// Why no message was taken.
#[derive(Clone, Copy, Debug, PartialEq, Eq, Error)]
pub enum TakeRefusal {
    /// The queue is empty.
    #[error("the queue is empty")]
    Idle,
    /// The front, of this number, is in flight.
    #[error("message {0} is in flight")]
    InFlightNow(u32),
    /// The front isn't due before this moment, in seconds since 1970.
    #[error("the next attempt is due at {0}")]
    NotDue(u64),
    /// A growth was refused.
    #[error("out of memory")]
    NoMemory,
}

/// Why nothing was cancelled.
#[derive(Clone, Copy, Debug, PartialEq, Eq, Error)]
pub enum CancelRefusal {
    /// There is no message of that number.
    #[error("there is no such message")]
    NoSuchMessage,
    /// The message waits at no destination.
    #[error("the message waits nowhere")]
    NothingWaiting,
    /// A growth was refused.
    #[error("out of memory")]
    NoMemory,
}

/// Why nothing was forgotten.
#[derive(Clone, Copy, Debug, PartialEq, Eq, Error)]
pub enum PruneRefusal {
    /// The message of this number, the least of those that were to be forgotten, is still to be delivered.
    #[error("message {0} is still to be delivered")]
    StillLive(u32),
    /// Fewer messages were accepted.
    #[error("there is no such message")]
    NoSuchMessage,
    /// As many prunings were made as may be.
    #[error("too many prunings were made")]
    TooMany,
    /// A growth was refused.
    #[error("out of memory")]
    NoMemory,
}

/// Why a plan was not deployed.
#[derive(Clone, Copy, Debug, PartialEq, Eq, Error)]
pub enum DeployRefusal {
    /// Its channels have other names, or are in another order.
    #[error("the channels differ")]
    ChannelsDiffer,
    /// Messages are still to be delivered to this destination, by its index, and the plan has no such destination, one of
    /// another name, or one with other attempts.
    #[error("destination {0} is in use")]
    DestinationInUse(u32),
    /// As many plans were deployed as may be.
    #[error("too many plans were deployed")]
    TooMany,
    /// The book holds as many entries as it may.
    #[error("the book is full")]
    Full,
    /// A growth was refused.
    #[error("out of memory")]
    NoMemory,
}

impl TakeRefusal {
    /// The number of the refusal: 1 for `Idle`, 2 for `InFlightNow`, 3 for `NotDue`, 4 for `NoMemory`.
    pub fn code(self) -> u32
        ensures { result ≡ take_refusal_code self }
    {
        match self {
            TakeRefusal::Idle => 1,
            TakeRefusal::InFlightNow(_) => 2,
            TakeRefusal::NotDue(_) => 3,
            TakeRefusal::NoMemory => 4,
        }
    }
}

impl CancelRefusal {
    /// The number of the refusal: 1 for `NoSuchMessage`, 2 for `NothingWaiting`, 3 for `NoMemory`.
    pub fn code(self) -> u32
        ensures { result ≡ cancel_refusal_code self }
    {
        match self {
            CancelRefusal::NoSuchMessage => 1,
            CancelRefusal::NothingWaiting => 2,
            CancelRefusal::NoMemory => 3,
        }
    }
}

impl DeployRefusal {
    /// The number of the refusal: 1 for `DestinationInUse`, 2 for `TooMany`, 3 for `ChannelsDiffer`, 4 for `Full`, 5 for
    /// `NoMemory`.
    pub fn code(self) -> u32
        ensures { result ≡ deploy_refusal_code self }
    {
        match self {
            DeployRefusal::DestinationInUse(_) => 1,
            DeployRefusal::TooMany => 2,
            DeployRefusal::ChannelsDiffer => 3,
            DeployRefusal::Full => 4,
            DeployRefusal::NoMemory => 5,
        }
    }
}

impl PruneRefusal {
    /// The number of the refusal: 1 for `StillLive`, 2 for `NoSuchMessage`, 3 for `TooMany`, 4 for `NoMemory`.
    pub fn code(self) -> u32
        ensures { result ≡ prune_refusal_code self }
    {
        match self {
            PruneRefusal::StillLive(_) => 1,
            PruneRefusal::NoSuchMessage => 2,
            PruneRefusal::TooMany => 3,
            PruneRefusal::NoMemory => 4,
        }
    }
}

impl From<AllocError> for TakeRefusal {
    ghost use Rattle.std.specs.Prelude.{◌≡◌};
    ghost use Rattle.event_log.specs.declared.refusal.TakeRefusal.TheVariants.{NoMemory};

    ghost from_gives = { λ _ e. e ≡ NoMemory };

    fn from(_: AllocError) -> TakeRefusal {
        TakeRefusal::NoMemory
    }
}

impl From<AllocError> for CancelRefusal {
    ghost use Rattle.std.specs.Prelude.{◌≡◌};
    ghost use Rattle.event_log.specs.declared.refusal.CancelRefusal.TheVariants.{NoMemory};

    ghost from_gives = { λ _ e. e ≡ NoMemory };

    fn from(_: AllocError) -> CancelRefusal {
        CancelRefusal::NoMemory
    }
}

impl From<AllocError> for DeployRefusal {
    ghost use Rattle.std.specs.Prelude.{◌≡◌};
    ghost use Rattle.event_log.specs.declared.refusal.DeployRefusal.TheVariants.{NoMemory};

    ghost from_gives = { λ _ e. e ≡ NoMemory };

    fn from(_: AllocError) -> DeployRefusal {
        DeployRefusal::NoMemory
    }
}

impl From<AllocError> for PruneRefusal {
    ghost use Rattle.std.specs.Prelude.{◌≡◌};
    ghost use Rattle.event_log.specs.declared.refusal.PruneRefusal.TheVariants.{NoMemory};

    ghost from_gives = { λ _ e. e ≡ NoMemory };

    fn from(_: AllocError) -> PruneRefusal {
        PruneRefusal::NoMemory
    }
}

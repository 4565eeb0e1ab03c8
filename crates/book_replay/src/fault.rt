//! Why a replay stops.

ghost use Rattle.std.specs.Prelude.{◌≡◌};
ghost use Rattle.book_replay.specs.declared.fault.ReplayFault.TheVariants.{NoMemory};
ghost use Rattle.book_replay.specs.inner.Faults.{arrival_fault, cancel_fault, deploy_fault, prune_fault, take_fault};

use book_core::NotBooked;
use event_log::{CancelRefusal, DeployRefusal, PruneRefusal, TakeRefusal};
use std::alloc::{AllocError, AllocFailed};
use thiserror::Error;

/// What is wrong with a record at which a replay stops.
#[derive(Clone, Copy, Debug, PartialEq, Eq, Error)]
pub enum ReplayFault {
    /// An allocation was refused.
    #[error("out of memory")]
    NoMemory,
    /// The record is of no event of a book: its channel is not in the plan, its text fits in no block or is no message, or
    /// its document is no plan.
    #[error("the record is of no event")]
    Invalid,
    /// The book refuses the event, which was booked once.
    #[error("the book refuses an event that was booked")]
    Refused,
    /// The book answers the arrival otherwise than its sender was answered.
    #[error("the book answers a message otherwise than its sender was answered")]
    Differs,
}

/// Why a replay stopped, and at which record.
#[derive(Clone, Copy, Debug, PartialEq, Eq, Error)]
#[error("record {index}: {fault}")]
pub struct ReplayError {
    /// The index of the record, counted from 0.
    pub index: usize,
    /// What is wrong with it.
    pub fault: ReplayFault,
}

impl From<AllocError> for ReplayFault {
    ghost from_gives = { λ _ e. e ≡ NoMemory };

    fn from(_: AllocError) -> ReplayFault {
        ReplayFault::NoMemory
    }
}

impl<T: Drop> From<AllocFailed<T>> for ReplayFault {
    ghost from_gives = { λ _ e. e ≡ NoMemory };

    fn from(_: AllocFailed<T>) -> ReplayFault {
        ReplayFault::NoMemory
    }
}

impl ReplayFault {
    /// Why an arrival could not be booked again.
    pub(crate) fn of_arrival(refusal: NotBooked) -> ReplayFault
        ensures { result ≡ arrival_fault refusal }
    {
        match refusal {
            NotBooked::NoMemory => ReplayFault::NoMemory,
            NotBooked::Full | NotBooked::PlanChanged => ReplayFault::Refused,
        }
    }

    /// Why the front of a queue could not be taken again.
    pub(crate) fn of_take(refusal: TakeRefusal) -> ReplayFault
        ensures { result ≡ take_fault refusal }
    {
        match refusal {
            TakeRefusal::NoMemory => ReplayFault::NoMemory,
            TakeRefusal::Idle | TakeRefusal::InFlightNow(_) | TakeRefusal::NotDue(_) => {
                ReplayFault::Refused
            }
        }
    }

    /// Why a message could not be cancelled again.
    pub(crate) fn of_cancellation(refusal: CancelRefusal) -> ReplayFault
        ensures { result ≡ cancel_fault refusal }
    {
        match refusal {
            CancelRefusal::NoMemory => ReplayFault::NoMemory,
            CancelRefusal::NoSuchMessage | CancelRefusal::NothingWaiting => ReplayFault::Refused,
        }
    }

    /// Why a plan could not be deployed again.
    pub(crate) fn of_deployment(refusal: DeployRefusal) -> ReplayFault
        ensures { result ≡ deploy_fault refusal }
    {
        match refusal {
            DeployRefusal::NoMemory => ReplayFault::NoMemory,
            DeployRefusal::ChannelsDiffer
            | DeployRefusal::DestinationInUse(_)
            | DeployRefusal::TooMany
            | DeployRefusal::Full => ReplayFault::Refused,
        }
    }

    /// Why messages could not be forgotten again.
    pub(crate) fn of_pruning(refusal: PruneRefusal) -> ReplayFault
        ensures { result ≡ prune_fault refusal }
    {
        match refusal {
            PruneRefusal::NoMemory => ReplayFault::NoMemory,
            PruneRefusal::StillLive(_) | PruneRefusal::NoSuchMessage | PruneRefusal::TooMany => {
                ReplayFault::Refused
            }
        }
    }
}

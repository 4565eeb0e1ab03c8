//! The queues of destinations: the slots of a message, one for each destination that it names, and the calls that
//! take, settle and cancel them in a store of rows.
#![tactic(auto)]

ghost use Rattle.std.specs.Prelude.{◌≡◌};
ghost use Rattle.dest_queue.specs.States.{is_live, is_waiting};
ghost use Rattle.dest_queue.specs.inner.States.{refusal_code};

use thiserror::Error;

mod kept;
mod queues;
mod slots;

pub use fixed_numbers::ATTEMPTS_MAX;
pub use kept::KeptState;
pub use queues::{
    begin_attempt, cancel_among, cancel_waiting, front_state, settle_slot, slot_of, take_front,
};
pub use slots::{Queued, Slot, Slots, slot_rules};

/// Why a message failed at a destination.
#[derive(Clone, Copy, Debug, PartialEq, Eq)]
pub enum FailCause {
    /// The destination refused it.
    Rejected,
    /// No attempt that was allowed delivered it.
    Exhausted,
    /// It was cancelled while it waited.
    Cancelled,
}

/// The state of a message at one of its destinations.
#[derive(Clone, Copy, Debug, PartialEq, Eq)]
pub enum SlotState {
    /// It waits for its next attempt, after `attempts` of them, and not before the moment `due`, in seconds since 1970.
    Waiting { attempts: u32, due: u64 },
    /// It was taken, and this attempt is under way. Attempts count from 1.
    InFlight { attempt: u32 },
    /// The destination has it.
    Delivered,
    /// It won't be sent any more.
    Failed(FailCause),
}

impl SlotState {
    /// Whether it waits.
    pub fn is_waiting(self) -> bool
        ensures { result ≡ is_waiting self }
    {
        matches!(self, SlotState::Waiting { .. })
    }

    /// Whether it is in the destination's queue: it waits or is in flight.
    pub fn is_live(self) -> bool
        ensures { result ≡ is_live self }
    {
        matches!(self, SlotState::Waiting { .. } | SlotState::InFlight { .. })
    }
}

/// The outcome of an attempt.
#[derive(Clone, Copy, Debug, PartialEq, Eq)]
pub enum Outcome {
    /// The destination has the message.
    Delivered,
    /// It has to be sent again.
    Again,
    /// The destination refused it for good.
    Rejected,
}

/// Why an attempt was not settled.
#[derive(Clone, Copy, Debug, PartialEq, Eq, Error)]
pub enum SettleRefusal {
    /// The slot is not in flight with that attempt, but in this state.
    #[error("that attempt is not in flight")]
    NotInFlight(SlotState),
    /// There is no such message, or it doesn't name the destination.
    #[error("the message has no slot there")]
    NoSlot,
}

impl SettleRefusal {
    /// The number of the refusal: 1 for `NotInFlight`, 2 for `NoSlot`.
    pub fn code(self) -> u32
        ensures { result ≡ refusal_code self }
    {
        match self {
            SettleRefusal::NotInFlight(_) => 1,
            SettleRefusal::NoSlot => 2,
        }
    }
}

//! The states of slots as a history keeps them.

ghost use Rattle.std.specs.Prelude.{◌≡◌};
ghost use Rattle.dest_queue.specs.inner.Kept.{IsKeepable};

use crate::{FailCause, SlotState};
use std::marker::Model;

/// A state with the moment of a retry in two pieces, which lie beside the count of attempts.
#[derive(Clone, Copy)]
enum Kept {
    Waiting {
        attempts: u8,
        due_high: u16,
        due_low: u32,
    },
    InFlight {
        attempt: u32,
    },
    Delivered,
    Failed(FailCause),
}

/// The state of a slot as a history keeps it: there is one of these for each attempt that was settled, and it takes half of
/// what a [`SlotState`] takes. It has room for 255 attempts, and for a moment below 2 ^ 48 seconds.
#[derive(Drop)]
pub struct KeptState {
    kept: Kept,
}

/// A kept state takes 8 bytes.
const _: () = prove!(size_of::<KeptState>() == 8);

/// The seconds in one of the high piece of a moment.
const HIGH: u64 = 1 << 32;

impl Model for KeptState {
    ghost use Rattle.dest_queue.specs.declared.SlotState.{SlotState};
    ghost use Rattle.dest_queue.specs.inner.Kept.{state_of};

    ghost Value = { SlotState };

    ghost view = { λ s. state_of s.kept };
}

impl KeptState {
    /// The state to keep.
    pub fn new(state: SlotState) -> KeptState
        requires { IsKeepable state }
        ensures { result ≡ state }
    {
        let kept = match state {
            SlotState::Waiting { attempts, due } => Kept::Waiting {
                attempts: attempts as u8,
                due_high: (due / HIGH) as u16,
                due_low: (due % HIGH) as u32,
            },
            SlotState::InFlight { attempt } => Kept::InFlight { attempt },
            SlotState::Delivered => Kept::Delivered,
            SlotState::Failed(cause) => Kept::Failed(cause),
        };
        KeptState { kept }
    }

    /// The state that is kept.
    pub fn get(&self) -> SlotState
        ensures { result ≡ self.now }
    {
        match self.kept {
            Kept::Waiting {
                attempts,
                due_high,
                due_low,
            } => SlotState::Waiting {
                attempts: u32::from(attempts),
                due: u64::from(due_high) * HIGH + u64::from(due_low),
            },
            Kept::InFlight { attempt } => SlotState::InFlight { attempt },
            Kept::Delivered => SlotState::Delivered,
            Kept::Failed(cause) => SlotState::Failed(cause),
        }
    }
}

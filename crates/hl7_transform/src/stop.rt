use crate::fault::StopCause;
use er7_tree::Refusal;
use std::alloc::AllocError;

/// Why one step wasn't taken.
#[derive(Clone, Copy)]
pub(crate) enum Stop {
    Cause(StopCause),
    NoMemory,
}

impl From<AllocError> for Stop {
    ghost use Rattle.std.specs.Prelude.{◌≡◌};
    ghost use Rattle.hl7_transform.specs.declared.stop.Stop.TheVariants.{NoMemory};

    ghost from_gives = { λ _ stop. stop ≡ NoMemory };

    fn from(_: AllocError) -> Stop {
        Stop::NoMemory
    }
}

impl From<Refusal> for Stop {
    ghost use Rattle.std.specs.Prelude.{◌≡◌};
    ghost use Rattle.hl7_transform.specs.inner.Outcome.{stop_of};

    ghost from_gives = { λ refusal stop. stop ≡ stop_of refusal };

    /// A step that a transformer may have names good paths, so its edits are refused for a missing segment or for memory.
    fn from(refusal: Refusal) -> Stop {
        match refusal {
            Refusal::NoMemory => Stop::NoMemory,
            _ => Stop::Cause(StopCause::NoSuchSegment),
        }
    }
}

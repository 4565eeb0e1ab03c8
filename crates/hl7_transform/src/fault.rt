use thiserror::Error;

/// Why a step can't be taken.
#[derive(Clone, Copy, Debug, PartialEq, Eq)]
pub enum StopCause {
    /// The message has no segment to write to.
    NoSuchSegment,
    /// The value is in no pair of the lookup table, and there is no default.
    NotInTable,
}

/// Why steps gave no message.
#[derive(Clone, Copy, Debug, PartialEq, Eq, Error)]
pub enum StepFault {
    /// The step at this index, counted from 0, can't be taken.
    #[error("step {place} stopped: {cause:?}")]
    Stopped { place: usize, cause: StopCause },
    /// There was no memory.
    #[error("out of memory")]
    NoMemory,
}

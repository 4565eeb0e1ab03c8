//! How far the end of a service is.

ghost use Rattle.std.specs.Prelude.{◌≡◌};
ghost use Rattle.service_workers.specs.inner.Stages.{stage_number, stage_of};

/// How far the end of a service is.
#[derive(Clone, Copy, Debug, PartialEq, Eq)]
pub enum Stage {
    /// Connections are accepted, read and answered, and messages delivered.
    Open,
    /// No connection is accepted, and no block read. What was read is answered, and what waits is delivered.
    Closing,
    /// No further attempt to deliver begins.
    Halted,
}

impl Stage {
    /// The number of the stage: a later one has a greater number.
    pub fn number(self) -> u32
        ensures { result ≡ stage_number self }
    {
        match self {
            Stage::Open => 0,
            Stage::Closing => 1,
            Stage::Halted => 2,
        }
    }

    /// The stage of a number; of one that no stage has, the last.
    pub fn of(number: u32) -> Stage
        ensures { result ≡ stage_of number }
    {
        match number {
            0 => Stage::Open,
            1 => Stage::Closing,
            _ => Stage::Halted,
        }
    }
}

ghost use Rattle.std.specs.Prelude.{◌≡◌};
ghost use Rattle.ack_rule.specs.Due.{verdictum_of};

use hl7_head::Cause;

/// What became of a message, as it is acknowledged to its sender.
#[derive(Clone, Copy, Debug, PartialEq, Eq)]
pub enum Verdictum {
    /// The message was taken, or had been taken before.
    Success,
    /// The message is not one that is taken here: CR or AR of table 0008.
    Reject(Cause),
    /// The message is one that is taken here, and was not: CE or AE of table 0008.
    Error(Cause),
}

impl Verdictum {
    /// What a refusal for this cause is: a rejection for an unacceptable MSH-9, MSH-11 or MSH-12, else an error.
    pub fn of_cause(cause: Cause) -> Verdictum
        ensures { result ≡ verdictum_of cause }
    {
        match cause {
            Cause::UnsupportedType | Cause::UnsupportedProcessing | Cause::UnsupportedVersion => {
                Verdictum::Reject(cause)
            }
            _ => Verdictum::Error(cause),
        }
    }
}

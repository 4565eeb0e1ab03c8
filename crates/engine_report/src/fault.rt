//! Why the program ends without success.

ghost use Rattle.std.specs.Prelude.{◌≡◌, ◌≤◌};
ghost use Rattle.engine_report.specs.Ending.{status_of};

use clap::error::ErrorKind;
use plan_notes::ShownFault;
use plan_text::{PlanFault, PlanFaultKind};
use std::alloc::AllocError;
use thiserror::Error;

/// Why the program ends without success. Its text is the line on standard error.
#[derive(Debug, Drop, Error)]
pub enum Fault<'a> {
    /// The words are none that the program takes. The text has lines of its own.
    #[error("{0}")]
    Words(clap::Error),
    /// A word of the command line is no text.
    #[error("the command line is not UTF-8")]
    NoText,
    /// The file of the plan can't be read.
    #[error("file: {0}")]
    File(&'a str),
    /// The plan has a fault. The line shows its path with control characters escaped and a key with a dot quoted.
    #[error("plan: {}", ShownFault(.0))]
    Plan(PlanFault),
    /// The connections of all channels together are more than 9,999.
    #[error("limit: connections")]
    Limit,
    /// A channel, of this name, can't listen, or couldn't go on.
    #[error("device: listen {0}")]
    Listen(String),
    /// The receipts of the connections are not what the book holds.
    #[error("audit: {0}")]
    Audit(Finding),
    /// The system gave no random bytes.
    #[error("device: random")]
    Random,
    /// Standard input failed, or brought more than one connection may.
    #[error("device: read")]
    Read,
    /// Standard output failed.
    #[error("device: write")]
    Write,
    /// Memory was refused.
    #[error("memory")]
    Memory,
}

/// What is wrong with the receipts of the connections.
#[derive(Clone, Copy, Debug, PartialEq, Eq, Error)]
pub enum Finding {
    /// An arrival has no receipt.
    #[error("Missing")]
    Missing,
    /// An arrival has two.
    #[error("Doubled")]
    Doubled,
    /// A receipt is of another arrival.
    #[error("Differs")]
    Differs,
    /// The shares of the workers don't add up to what the book counted.
    #[error("SharesMissing")]
    SharesMissing,
    /// The receipts of a connection are not in the order in which they were booked.
    #[error("OutOfOrder")]
    OutOfOrder,
}

impl Fault<'_> {
    /// The exit status: 1 of a faulty plan, 2 of words that aren't taken or request too much, 3 of a file, a device or
    /// memory, 4 of an audit.
    pub fn status(&self) -> u8
        ensures status { result ≡ status_of self.now }
        ensures failure { 1 ≤ result }
    {
        match self {
            Fault::Plan(_) => 1,
            Fault::Words(_) | Fault::NoText | Fault::Limit => 2,
            Fault::File(_)
            | Fault::Listen(_)
            | Fault::Random
            | Fault::Read
            | Fault::Write
            | Fault::Memory => 3,
            Fault::Audit(_) => 4,
        }
    }
}

/// `Memory` where the parser of the command line lacked memory, else `Words`.
impl From<clap::Error> for Fault<'_> {
    ghost use Rattle.engine_report.specs.Ending.{IsFaultOfWords};

    ghost from_gives = { IsFaultOfWords };

    fn from(error: clap::Error) -> Self {
        if error.kind() == ErrorKind::OutOfMemory {
            Fault::Memory
        } else {
            Fault::Words(error)
        }
    }
}

/// `Memory` where memory was refused while the plan was read, else `Plan`.
impl From<PlanFault> for Fault<'_> {
    ghost use Rattle.engine_report.specs.Ending.{IsFaultOfPlan};

    ghost from_gives = { IsFaultOfPlan };

    fn from(fault: PlanFault) -> Self {
        if fault.name == PlanFaultKind::NoMemory {
            Fault::Memory
        } else {
            Fault::Plan(fault)
        }
    }
}

impl From<AllocError> for Fault<'_> {
    ghost use Rattle.std.specs.Prelude.{◌≡◌};
    ghost use Rattle.engine_report.specs.declared.fault.Fault.TheVariants.{Memory};

    ghost from_gives = { λ _ fault. fault ≡ Memory };

    fn from(_: AllocError) -> Self {
        Fault::Memory
    }
}

//! How hl7_service ends.

ghost use Rattle.std.specs.Prelude.{◌≡◌};
ghost use Rattle.engine_report.specs.inner.Ended.{ended_status, trouble_status};

use crate::fault::Fault;
use std::alloc::AllocError;
use thiserror::Error;

/// How the program ends where it does what was requested.
#[derive(Clone, Copy, Debug, PartialEq, Eq)]
pub enum Ended {
    /// All was done.
    Done,
    /// A message that was tried is refused, or couldn't be read.
    Refused,
    /// The service ended, and messages were left undelivered.
    Undelivered,
}

/// Why the program can't do what was requested. Its text is the line on standard error.
#[derive(Debug, Drop, Error)]
pub enum Trouble<'a> {
    /// What an engine meets too.
    #[error("{0}")]
    Engine(Fault<'a>),
    /// The plan has no channel of the name that was given.
    #[error("error: the plan has no channel '{given}'; it has {names}")]
    NoChannel {
        /// The name that was given.
        given: &'a str,
        /// The names of the plan's channels.
        names: String,
    },
    /// The store can't be used, or has failed.
    #[error("store: {line}")]
    Store {
        /// What is wrong, in a line.
        line: String,
        /// The exit status.
        status: u8,
    },
}

impl Ended {
    /// The exit status: 1 where a message that was tried is refused or couldn't be read, and 5 where messages were left
    /// undelivered.
    pub fn status(self) -> u8
        ensures { result ≡ ended_status self }
    {
        match self {
            Ended::Done => 0,
            Ended::Refused => 1,
            Ended::Undelivered => 5,
        }
    }
}

impl Trouble<'_> {
    /// The exit status: that of the fault, 2 for a channel that isn't in the plan, and what a store's failure says.
    pub fn status(&self) -> u8
        ensures { result ≡ trouble_status self.now }
    {
        match self {
            Trouble::Engine(fault) => fault.status(),
            Trouble::NoChannel { .. } => 2,
            Trouble::Store { status, .. } => *status,
        }
    }
}

impl<'a> From<Fault<'a>> for Trouble<'a> {
    fn from(fault: Fault<'a>) -> Self {
        Trouble::Engine(fault)
    }
}

impl From<AllocError> for Trouble<'_> {
    fn from(_: AllocError) -> Self {
        Trouble::Engine(Fault::Memory)
    }
}

//! Where messages go.

ghost use Rattle.std.specs.Prelude.{◌≡◌};

use crate::literal::Literal;
use std::marker::Model;

/// What ends a delivery.
#[derive(Clone, Copy, Debug, PartialEq, Eq)]
pub enum Await {
    /// The destination's acknowledgment.
    Ack,
    /// That the message was written and flushed.
    None,
}

/// Where messages go: one peer over MLLP, and how often and how long it is tried.
#[derive(Drop)]
pub struct Destination {
    pub(crate) name: Literal,
    pub(crate) address: Literal,
    pub(crate) attempts: u32,
    pub(crate) interval: u32,
    pub(crate) timeout: u32,
    pub(crate) wait: Await,
}

impl Model for Destination {
    ghost use Rattle.plan_text.specs.Entries.{DestinationEntry};

    ghost Value = { DestinationEntry };

    ghost view = { λ d. record {
      name = d.name;
      address = d.address;
      attempts = d.attempts;
      interval = d.interval;
      timeout = d.timeout;
      wait = d.wait;
    } };
}

impl Destination {
    /// The name, which no other destination of the plan has.
    pub fn name(&self) -> &str
        ensures { result.now ≡ self.now.name }
    {
        self.name.as_str()
    }

    /// The address to connect to, as `127.0.0.1:6661`.
    pub fn address(&self) -> &str
        ensures { result.now ≡ self.now.address }
    {
        self.address.as_str()
    }

    /// The most attempts to deliver a message, 1 to 100.
    pub fn attempts(&self) -> u32
        ensures { result ≡ self.now.attempts }
    {
        self.attempts
    }

    /// The seconds from a failed attempt to the next one, 0 to 86,400.
    pub fn interval(&self) -> u32
        ensures { result ≡ self.now.interval }
    {
        self.interval
    }

    /// The most seconds for a connect to one address, for a write that makes no progress and for each read of an
    /// answer, 1 to 3,600.
    pub fn timeout(&self) -> u32
        ensures { result ≡ self.now.timeout }
    {
        self.timeout
    }

    /// What ends a delivery.
    pub fn wait(&self) -> Await
        ensures { result ≡ self.now.wait }
    {
        self.wait
    }
}

impl PartialEq for Destination {
    ghost use Rattle.plan_text.specs.inner.Same.{same_destination, destination_laws};

    ghost eq = { same_destination };

    ghost laws = { destination_laws };

    fn eq(&self, other: &Destination) -> bool {
        self.name == other.name
            && self.address == other.address
            && self.attempts == other.attempts
            && self.interval == other.interval
            && self.timeout == other.timeout
            && self.wait == other.wait
    }
}

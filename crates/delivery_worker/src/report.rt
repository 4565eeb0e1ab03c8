//! The report of delivering.

ghost use Rattle.std.specs.Prelude.{◌≡◌, ◌+◌, ◌≤◌, ◌^◌, ◌<◌};
ghost use Rattle.delivery_worker.specs.inner.Delivering.{counted, no_attempts};

use dest_queue::Outcome;

/// Why delivering ended.
#[derive(Clone, Copy, Debug, PartialEq, Eq)]
pub enum DeliverEnd {
    /// No arrival will follow, and the queue was empty after that was noted.
    Drained,
    /// As many turns were taken as were given.
    TurnsSpent,
    /// It was halted. What was not taken yet is still queued.
    Halted,
    /// No arrival will follow, and the queue was held. What was not taken yet is still queued.
    Held,
}

/// The outcomes of the attempts to deliver messages, and why delivering ended.
#[derive(Clone, Copy, Debug, PartialEq, Eq)]
pub struct DeliverReport {
    /// How many attempts were made.
    pub taken: u64,
    /// How many of them delivered their message.
    pub delivered: u64,
    /// How many have to be made again, or were the last one.
    pub again: u64,
    /// How many were rejected by the destination for good.
    pub rejected: u64,
    pub end: DeliverEnd,
}

impl DeliverReport {
    /// A report without attempts; `end` is `TurnsSpent` until it is set.
    pub fn new() -> Self
        ensures { result ≡ no_attempts }
    {
        DeliverReport {
            taken: 0,
            delivered: 0,
            again: 0,
            rejected: 0,
            end: DeliverEnd::TurnsSpent,
        }
    }

    /// Counts an attempt by its outcome.
    pub fn count(&mut self, outcome: Outcome)
        requires sum { self.old.taken ≡ self.old.delivered + self.old.again + self.old.rejected }
        requires room { self.old.taken + 1 < 2 ^ 64 }
        ensures { self.new ≡ counted outcome self.old }
    {
        self.taken += 1;
        match outcome {
            Outcome::Delivered => self.delivered += 1,
            Outcome::Again => self.again += 1,
            Outcome::Rejected => self.rejected += 1,
        }
    }
}

//! How full a shared book is, and what is shown of it.

ghost use Rattle.std.specs.Prelude.{◌≡◌, ◌+◌, ◌-◌, ◌≤◌};

use book_core::{Front, is_tight};
use row_store::QUEUES;
use stat_count::Counts;

/// How full a shared book is.
#[derive(Clone, Copy, Debug, PartialEq, Eq)]
pub struct Gauge {
    /// The entries that it holds: those that were folded are not among them.
    pub held: usize,
    /// The entries that may still follow from the deliveries of its messages.
    pub owed: u32,
    /// The most entries that it may hold, those owed included.
    pub events_max: u32,
    /// The messages that were accepted: the number of the next.
    pub messages: u32,
    /// The number of the first message that is not forgotten, or of the next one where all are.
    pub first: u32,
    /// The prunings that were made, of `PRUNINGS_MAX`.
    pub prunings: u32,
    /// The plans that were deployed, of `DEPLOYMENTS_MAX`.
    pub deployments: u32,
    /// The connections that were admitted since the book was shared: the number of the next.
    pub admitted: u32,
}

impl Gauge {
    /// How many messages are remembered.
    pub fn remembered(self) -> u32
        ensures { result ≡ self.messages - self.first }
    {
        self.messages.saturating_sub(self.first)
    }

    /// How many more entries there is room for: what is neither held nor owed.
    pub fn left(self) -> u32
        requires { self.held + self.owed ≤ self.events_max }
        ensures { result + self.held + self.owed ≡ self.events_max }
    {
        self.events_max - self.owed - self.held as u32
    }
}

/// What is shown of a shared book, read at one moment.
#[derive(Clone, Copy, Debug, PartialEq, Eq)]
pub struct Status {
    /// How full it is.
    pub gauge: Gauge,
    /// The statistics of its channels and destinations.
    pub counts: Counts,
    /// The message at the front of each destination's queue, by index, with its state there.
    pub fronts: [Option<Front>; QUEUES as usize],
    /// The first message that is still to be delivered to a destination.
    pub first_live: Option<u32>,
}

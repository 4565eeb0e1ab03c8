//! What a journal keeps of an event.

use dest_queue::Outcome;
use event_log::{Ticket, Told};
use hl7_head::Moment;
use judge_core::Text;

/// An event, or a pruning, as a journal keeps it. What the book replies to it follows from the records before it; the answer
/// to an arrival is kept beside it, so that a replay finds a program that would answer its sender otherwise.
#[derive(Drop)]
pub enum Record {
    /// A text arrived over a connection, on a channel, and its sender was answered this.
    Arrival {
        /// The number of the connection.
        conn: u32,
        /// The index of the channel in the plan.
        channel: u32,
        /// The bytes received.
        raw: Text,
        /// The answer.
        told: Told,
    },
    /// The front of a destination's queue was taken.
    Take {
        /// The index of the destination in the plan.
        destination: u32,
        /// When.
        now: Moment,
    },
    /// An attempt was settled.
    Settle {
        /// The attempt.
        ticket: Ticket,
        /// What became of it.
        outcome: Outcome,
        /// When.
        now: Moment,
    },
    /// A message was cancelled at some destinations.
    Cancel {
        /// The number of the message.
        number: u32,
        /// The destinations, as a mask: bit d is set for destination d.
        among: u32,
    },
    /// A plan was deployed.
    Deploy {
        /// The document of the plan.
        document: Text,
    },
    /// The messages numbered below `before` were forgotten, and all entries folded.
    Prune {
        /// The number of the first message that is kept.
        before: u32,
    },
}

//! The steps of a run.

use dest_queue::Outcome;
use event_log::Ticket;
use hl7_head::Moment;
use plan_text::Plan;
use std::sync::Arc;

/// A step of a run of the engine.
#[derive(Drop)]
pub enum Step {
    /// A piece of its stream is received on a connection.
    Chunk {
        conn: u32,
        bytes: Vec<u8>,
        now: Moment,
    },
    /// The front of a destination's queue is taken, to be sent.
    Take {
        d: u32,
        now: Moment,
    },
    /// An attempt is settled.
    Settle {
        ticket: Ticket,
        outcome: Outcome,
        now: Moment,
    },
    /// A message is cancelled wherever it waits.
    Cancel {
        number: u32,
    },
    /// A message is cancelled where it waits at one of the destinations of a mask, which has bit d for destination d.
    CancelAmong {
        number: u32,
        among: u32,
    },
    /// A plan is deployed.
    Deploy {
        plan: Arc<Plan>,
    },
    /// The messages numbered below `before` are forgotten, and the history is folded.
    Prune {
        before: u32,
    },
}

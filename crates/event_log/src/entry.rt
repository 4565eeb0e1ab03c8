//! Events with their replies.

ghost use Rattle.std.specs.Prelude.{◌≡◌, position};
ghost use Rattle.std.specs.Arc.{arc_value};
ghost use Rattle.event_log.specs.Answers.{brings};
ghost use Rattle.event_log.specs.inner.Counting.{is_acceptance};
ghost use Rattle.event_log.specs.History.{is_numbered};
ghost use Rattle.event_log.specs.inner.History.{is_arrival_of};

use dest_queue::{KeptState, Outcome};
use hl7_head::{Cause, Moment};
use judge_core::Text;
use plan_text::Plan;
use std::marker::Model;
use std::sync::Arc;

/// The answer to an arrival, as it is acknowledged to its sender.
#[derive(Clone, Copy, Debug, PartialEq, Eq)]
pub enum Told {
    /// It was accepted, as the message of this number. Messages are numbered from 0.
    Accepted(u32),
    /// It was taken, and goes nowhere.
    Filtered,
    /// It was refused.
    Refused(Cause),
    /// It was received before: the index of the entry of its first arrival.
    Repeat(u32),
}

/// An answer takes 8 bytes, in each entry of an arrival.
const _: () = prove!(size_of::<Told>() == 8);

impl Told {
    /// Whether it says that the message has this number.
    pub fn is_numbered(&self, number: u32) -> bool
        ensures { result ≡ is_numbered number self.now }
    {
        match self {
            Told::Accepted(own) => *own == number,
            Told::Filtered | Told::Refused(_) | Told::Repeat(_) => false,
        }
    }
}

/// The right to settle one attempt to deliver a message.
#[derive(Clone, Copy, Debug, PartialEq, Eq)]
pub struct Ticket {
    /// The number of the message.
    pub number: u32,
    /// The index of the destination in the plan.
    pub destination: u32,
    /// The attempt, counted from 1.
    pub attempt: u32,
}

/// A plan that was deployed, held once for all its owners.
#[derive(Drop)]
pub struct DeployedPlan {
    plan: Arc<Plan>,
}

impl Model for DeployedPlan {
    ghost use Rattle.std.specs.Arc.{arc_value};
    ghost use Rattle.plan_text.specs.inner.Coding.{plan_code};
    ghost use Rattle.plan_text.specs.Entries.{PlanEntry};

    ghost Value = { PlanEntry };

    ghost coded = { plan_code };

    ghost view = { λ d. arc_value d.plan };
}

impl DeployedPlan {
    /// The plan, with its owners.
    pub fn new(plan: Arc<Plan>) -> DeployedPlan
        ensures { result ≡ arc_value plan }
    {
        DeployedPlan { plan }
    }

    /// The plan.
    pub fn plan(&self) -> &Arc<Plan>
        ensures { arc_value result.now ≡ self.now }
    {
        &self.plan
    }
}

/// An event with its reply.
#[derive(Drop)]
pub enum Entry {
    /// A text arrived over a connection, on a channel.
    Arrival {
        conn: u32,
        channel: u32,
        raw: Text,
        told: Told,
    },
    /// The front of a queue was taken.
    Take {
        ticket: Ticket,
        now: Moment,
    },
    /// An attempt was settled, which left its slot in this state.
    Settle {
        /// First, since it has room beside the mark of the variant.
        outcome: Outcome,
        ticket: Ticket,
        now: Moment,
        state: KeptState,
    },
    /// A message was cancelled among some destinations: bit d of `among` is set for each of these, and bit d of `mask` for
    /// each of these at which it waited.
    Cancel {
        number: u32,
        among: u32,
        mask: u32,
    },
    /// A plan was deployed: it is in force from then on.
    Deploy {
        plan: DeployedPlan,
    },
}

/// An entry takes 32 bytes beside the text that it shares.
const _: () = prove!(size_of::<Entry>() == 32);

impl Entry {
    /// Whether it is the arrival of these bytes.
    pub fn brings(&self, raw: &[u8]) -> bool
        ensures { result ≡ brings raw.now self.now }
    {
        match self {
            Entry::Arrival { raw: came, .. } => raw == came.as_slice(),
            _ => false,
        }
    }

    /// Whether it is the arrival of an accepted message.
    pub fn accepts(&self) -> bool
        ensures { result ≡ is_acceptance self.now }
    {
        matches!(
            self,
            Entry::Arrival {
                told: Told::Accepted(_),
                ..
            }
        )
    }

    /// Whether it is the arrival of the message of this number.
    pub fn is_arrival_of(&self, number: u32) -> bool
        ensures { result ≡ is_arrival_of number self.now }
    {
        match self {
            Entry::Arrival { told, .. } => told.is_numbered(number),
            _ => false,
        }
    }
}

/// Which of the entries is the first arrival of the message of this number.
pub(crate) fn index_of_arrival(entries: &[Entry], number: u32) -> Option<usize>
    ensures { result ≡ position (is_arrival_of number) entries.now }
{
    entries.iter().position(|entry| entry.is_arrival_of(number))
}

//! A row before it is written.

ghost use Rattle.std.specs.Prelude.{◌≡◌, [], ◌∷◌, pos, IfOk};
ghost use Rattle.event_log.specs.History.{control_id_of};
ghost use Rattle.book_lock.specs.Journal.{change_copied};
ghost use Rattle.book_journal.specs.inner.Held.{kind_of, number_of, outcome_of, state_text, told_number, told_text};
ghost use Rattle.book_journal.specs.inner.Rows.{IsReady};

use crate::encode::body_of;
use book_lock::Copied;
use dest_queue::SlotState;
use er7_tree::{Message, Refusal};
use event_log::Told;
use event_store::Columns;
use hl7_head::Header;
use plan_text::Plan;
use std::alloc::{AllocError, Global};
use std::sync::Arc;

/// A row of a change: its body, and what its columns say beside it.
#[derive(Drop)]
pub struct Row {
    /// The encoding of the record.
    pub body: Vec<u8>,
    /// The control id of an arrival's message (MSH-10); empty for other changes.
    pub control_id: Vec<u8>,
    /// The plan by which a channel and a destination are named.
    pub plan: Arc<Plan>,
    /// What kind of change it is.
    pub kind: &'static str,
    /// The number of the message, or 0.
    pub number: u32,
    /// What became of the message.
    pub outcome: &'static str,
    /// The index of the channel, of an arrival.
    pub channel: Option<u32>,
    /// The index of the destination, of a take or a settlement.
    pub destination: Option<u32>,
}

/// What became of an arrival.
fn told_text(told: Told) -> &'static str
    ensures { result.now ≡ told_text told }
{
    match told {
        Told::Accepted(_) => "accepted",
        Told::Filtered => "filtered",
        Told::Refused(_) => "refused",
        Told::Repeat(_) => "repeat",
    }
}

/// What became of a message at a destination.
fn state_text(state: SlotState) -> &'static str
    ensures { result.now ≡ state_text state }
{
    match state {
        SlotState::Waiting { .. } => "waiting",
        SlotState::InFlight { .. } => "in flight",
        SlotState::Delivered => "delivered",
        SlotState::Failed(_) => "failed",
    }
}

/// The kind of a change.
fn kind_of(change: &Copied) -> &'static str
    ensures { result.now ≡ kind_of (change_copied change.now) }
{
    match change {
        Copied::Arrival { .. } => "arrival",
        Copied::Take { .. } => "take",
        Copied::Settle { .. } => "settlement",
        Copied::Cancel { .. } => "cancellation",
        Copied::Deploy { .. } => "deployment",
        Copied::Prune { .. } => "pruning",
    }
}

/// The number that an arrival was given, or 0.
fn told_number(told: Told) -> u32
    ensures { result ≡ told_number told }
{
    match told {
        Told::Accepted(number) => number,
        Told::Filtered | Told::Refused(_) | Told::Repeat(_) => 0,
    }
}

/// The number of the message of a change.
fn number_of(change: &Copied) -> u32
    ensures { result ≡ number_of (change_copied change.now) }
{
    match change {
        Copied::Arrival { told, .. } => told_number(*told),
        Copied::Take { ticket, .. } | Copied::Settle { ticket, .. } => ticket.number,
        Copied::Cancel { number, .. } => *number,
        Copied::Deploy { .. } => 0,
        Copied::Prune { before } => *before,
    }
}

/// What became of the message of a change.
fn outcome_of(change: &Copied) -> &'static str
    ensures { result.now ≡ outcome_of (change_copied change.now) }
{
    match change {
        Copied::Arrival { told, .. } => told_text(*told),
        Copied::Settle { state, .. } => state_text(*state),
        _ => "",
    }
}

/// The indices of the channel and of the destination that a change names.
fn indices_of(change: &Copied) -> (Option<u32>, Option<u32>) {
    match change {
        Copied::Arrival { channel, .. } => (Some(*channel), None),
        Copied::Take { ticket, .. } | Copied::Settle { ticket, .. } => {
            (None, Some(ticket.destination))
        }
        _ => (None, None),
    }
}

/// The control id of a text (MSH-10); empty where it is no message.
fn control_id_of(alloc: Global, raw: &[u8]) -> Result<Vec<u8>, AllocError>
    ensures { IfOk result (λ id. id.items ≡ control_id_of raw.now) }
{
    match Message::parse(alloc, raw) {
        Ok(message) => Vec::from_slice(alloc, Header::read(&message)?.control_id()),
        Err(Refusal::NoMemory) => Err(AllocError),
        Err(_) => Ok(Vec::new(alloc)),
    }
}

/// The row of a change, under the plan that is in force at it.
///
/// # Errors
///
/// Where memory is refused.
pub(crate) fn row_of(alloc: Global, change: &Copied, plan: &Arc<Plan>) -> Result<Row, AllocError>
    ensures { IfOk result (λ row. IsReady row (change_copied change.now)) }
{
    let control_id = match change {
        Copied::Arrival { raw, .. } => control_id_of(alloc, raw.as_slice())?,
        _ => Vec::new(alloc),
    };
    let (channel, destination) = indices_of(change);
    Ok(Row {
        body: body_of(alloc, change)?,
        control_id,
        plan: Arc::try_clone(plan)?,
        kind: kind_of(change),
        number: number_of(change),
        outcome: outcome_of(change),
        channel,
        destination,
    })
}

/// The name of a channel, where one was named.
fn channel_name(plan: &Plan, channel: Option<u32>) -> &str {
    match channel.and_then(|index| plan.channel(index)) {
        Some(channel) => channel.name(),
        None => "",
    }
}

/// The name of a destination, where one was named.
fn destination_name(plan: &Plan, destination: Option<u32>) -> &str {
    match destination.and_then(|index| plan.destination(index)) {
        Some(destination) => destination.name(),
        None => "",
    }
}

impl Row {
    /// The columns beside the body, in a row that is written at this moment, in milliseconds since 1970.
    pub fn columns(&self, at: i64) -> Columns<'_>
        ensures at { result.at ≡ at }
        ensures peer { result.peer.now ≡ [] }
        ensures kind { result.kind.now ≡ self.now.kind.now }
        ensures number { result.number ≡ pos self.now.number }
        ensures control_id { result.control_id.now ≡ self.now.control_id.items }
        ensures outcome { result.outcome.now ≡ self.now.outcome.now }
    {
        Columns {
            at,
            peer: "",
            kind: self.kind,
            channel: channel_name(&self.plan, self.channel),
            number: i64::from(self.number),
            control_id: self.control_id.as_slice(),
            destination: destination_name(&self.plan, self.destination),
            outcome: self.outcome,
        }
    }
}

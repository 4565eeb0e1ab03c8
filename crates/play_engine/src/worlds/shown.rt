//! How entries, steps and replies are written.

use dest_queue::Outcome;
use engine_model::Step;
use event_log::{Entry, Ticket};
use hl7_head::Moment;
use plan_text::{Channel, Destination, Plan};
use play_script::shown;
use std::alloc::{AllocError, Global};

/// An attempt that is settled.
fn settlement_shown(
    alloc: Global,
    ticket: &Ticket,
    outcome: Outcome,
    now: Moment,
) -> Result<String, AllocError> {
    format!(in alloc;
        "settle {} {} {} {outcome:?} at {}",
        ticket.number,
        ticket.destination,
        ticket.attempt,
        now.secs()
    )
}

/// A channel, by its name.
fn channel_shown(alloc: Global, channel: Option<&Channel>) -> Result<String, AllocError> {
    match channel {
        Some(channel) => String::from_str(alloc, channel.name()),
        None => Ok(String::new(alloc)),
    }
}

/// A destination, by its name, its attempts and the seconds between two of them.
fn destination_shown(
    alloc: Global,
    destination: Option<&Destination>,
) -> Result<String, AllocError> {
    match destination {
        Some(destination) => format!(in alloc;
            "{} (attempts {}, interval {})",
            destination.name(),
            destination.attempts(),
            destination.interval()
        ),
        None => Ok(String::new(alloc)),
    }
}

/// A plan, by its channels and its destinations.
///
/// # Errors
///
/// Where memory is refused.
pub(crate) fn plan_shown(alloc: Global, plan: &Plan) -> Result<String, AllocError> {
    let mut text = String::new(alloc);
    for place in 0..plan.channels() {
        let channel = channel_shown(alloc, plan.channel(place))?;
        write!(text, "{}{channel}", if place == 0 { "" } else { ", " })?;
    }
    for place in 0..plan.destinations() {
        let destination = destination_shown(alloc, plan.destination(place))?;
        write!(
            text,
            "{}{destination}",
            if place == 0 { " to " } else { ", " }
        )?;
    }
    Ok(text)
}

/// A plan that is deployed.
fn deployment_shown(alloc: Global, plan: &Plan) -> Result<String, AllocError> {
    let plan = plan_shown(alloc, plan)?;
    format!(in alloc; "deploy {plan}")
}

/// An entry.
///
/// # Errors
///
/// Where memory is refused.
pub(crate) fn entry_shown(alloc: Global, entry: &Entry) -> Result<String, AllocError> {
    match entry {
        Entry::Arrival {
            conn,
            channel,
            raw,
            told,
        } => format!(in alloc;
            "arrival by {conn} on {channel}, {} bytes, {told:?}",
            raw.as_slice().len()
        ),
        Entry::Take { ticket, now } => format!(in alloc;
            "take {} {} {} at {}",
            ticket.number,
            ticket.destination,
            ticket.attempt,
            now.secs()
        ),
        Entry::Settle {
            ticket,
            outcome,
            now,
            state,
        } => {
            let settlement = settlement_shown(alloc, ticket, *outcome, *now)?;
            format!(in alloc; "{settlement}, {:?}", state.get())
        }
        Entry::Cancel {
            number,
            among: u32::MAX,
            mask,
        } => format!(in alloc; "cancel {number}, mask {mask}"),
        Entry::Cancel {
            number,
            among,
            mask,
        } => format!(in alloc; "cancel {number} among mask {among}, mask {mask}"),
        Entry::Deploy { plan } => deployment_shown(alloc, plan.plan()),
    }
}

/// A step.
///
/// # Errors
///
/// Where memory is refused.
pub(crate) fn step_shown(alloc: Global, step: &Step) -> Result<String, AllocError> {
    match step {
        Step::Chunk { conn, bytes, now } => {
            let piece = shown(alloc, bytes)?;
            format!(in alloc; "chunk on {conn} at {}: {piece}", now.secs())
        }
        Step::Take { d, now } => format!(in alloc; "take {d} at {}", now.secs()),
        Step::Settle {
            ticket,
            outcome,
            now,
        } => settlement_shown(alloc, ticket, *outcome, *now),
        Step::Cancel { number } => format!(in alloc; "cancel {number}"),
        Step::CancelAmong { number, among } => {
            format!(in alloc; "cancel {number} among mask {among}")
        }
        Step::Deploy { plan } => deployment_shown(alloc, plan),
        Step::Prune { before } => format!(in alloc; "prune {before}"),
    }
}

/// Bytes that a connection was sent, a block a line.
///
/// # Errors
///
/// Where memory is refused.
pub(crate) fn sent_shown(alloc: Global, conn: u32, bytes: &[u8]) -> Result<String, AllocError> {
    if bytes.is_empty() {
        return Ok(String::new(alloc));
    }
    let next = format!(in alloc; "<FS><CR>\n  to {conn}: <VT>")?;
    let blocks = shown(alloc, bytes)?;
    let lines = blocks.replace(alloc, "<FS><CR><VT>", next.as_str())?;
    format!(in alloc; "  to {conn}: {lines}\n")
}

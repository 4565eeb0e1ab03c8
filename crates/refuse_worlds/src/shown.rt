//! What a shared book shows, as text.

use book_core::Front;
use book_lock::{Found, Status};
use call_window::book_state::push_plan;
use plan_text::Plan;
use play_script::shown;
use row_store::QUEUES;
use stat_count::{CHANNELS, Counts};
use std::alloc::AllocError;
use std::fmt::Write;

/// Appends what was counted of each channel on which anything arrived, and of each destination that
/// anything goes to.
fn push_counts(told: &mut String, counts: &Counts) -> Result<(), AllocError> {
    for channel in 0..CHANNELS {
        let here = counts.channel(channel);
        if here.received != 0 {
            write!(told, "; channel {channel}: {here:?}")?;
        }
    }
    for d in 0..QUEUES {
        let here = counts.destination(d);
        if here.waiting != 0 || here.attempts != 0 || here.failed != 0 {
            write!(told, "; destination {d}: {here:?}")?;
        }
    }
    Ok(())
}

/// Appends what is shown at one moment: how full the book is, its plan, its statistics and the
/// fronts of its queues.
///
/// # Errors
///
/// Where memory is refused.
pub(crate) fn push_status(
    told: &mut String,
    status: &Status,
    plan: &Plan,
) -> Result<(), AllocError> {
    write!(told, "; {:?}", status.gauge)?;
    push_plan(told, plan)?;
    push_counts(told, &status.counts)?;
    for (d, front) in status.fronts.iter().enumerate() {
        if let Some(front) = front {
            write!(told, "; front of {d}: {front:?}")?;
        }
    }
    write!(told, "; first live {:?}", status.first_live)
}

/// Appends what the book says of a message.
///
/// # Errors
///
/// Where memory is refused.
pub(crate) fn push_message(
    told: &mut String,
    number: u32,
    found: &Found,
) -> Result<(), AllocError> {
    let Found::Kept(message) = found else {
        return write!(told, "; message {number} is not kept");
    };
    let text = shown(*told.allocator(), message.raw.as_slice())?;
    write!(
        told,
        "; message {number} by {:?} on {}: {text}",
        message.conn, message.channel
    )?;
    for (d, state) in message.states.iter().enumerate() {
        if let Some(state) = state {
            write!(told, ", {d} {state:?}")?;
        }
    }
    Ok(())
}

/// Appends the messages of a queue, if it has any.
///
/// # Errors
///
/// Where memory is refused.
pub(crate) fn push_queue(told: &mut String, d: u32, queue: &[Front]) -> Result<(), AllocError> {
    if !queue.is_empty() {
        write!(told, "; queue {d}:")?;
    }
    for front in queue {
        write!(told, " {} {:?}", front.number, front.state)?;
    }
    Ok(())
}

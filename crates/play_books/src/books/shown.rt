//! How messages, receipts, jobs and entries are written.

use book_core::{Book, BookRows, Front, Job, Outbound, Receipt};
use dest_queue::{Outcome, SlotState};
use event_log::{Entry, Ticket, Told};
use hl7_head::Moment;
use plan_text::Plan;
use std::alloc::{AllocError, Global};

/// The bytes 0x0D of a message, as a script writes them.
const RETURN: &str = "<CR>";

/// The bytes of a text, with 0x0D where it says so, and a number for each `#`.
///
/// # Errors
///
/// Where memory is refused.
pub(crate) fn bytes_of(alloc: Global, text: &str, number: u32) -> Result<Vec<u8>, AllocError> {
    let number = format!(in alloc; "{number}")?;
    let text = text.replace(alloc, RETURN, "\r")?;
    Ok(text.replace(alloc, "#", number.as_str())?.into_bytes())
}

/// A text as a script writes it.
fn shown(alloc: Global, bytes: &[u8]) -> Result<String, AllocError> {
    String::from_utf8_lossy(alloc, bytes)?.replace(alloc, "\r", RETURN)
}

/// A receipt, as a line shows it.
///
/// # Errors
///
/// Where memory is refused.
pub(crate) fn receipt_shown(alloc: Global, receipt: &Receipt) -> Result<String, AllocError> {
    format!(in alloc;
        "{:?}, entry {}, connection {}, channel {}, {} bytes",
        receipt.told,
        receipt.entry,
        receipt.conn,
        receipt.channel,
        receipt.raw.as_slice().len()
    )
}

/// A job, as a line shows it.
///
/// # Errors
///
/// Where memory is refused.
pub(crate) fn job_shown(alloc: Global, job: &Job) -> Result<String, AllocError> {
    let ticket = job.ticket;
    let id = shown(alloc, job.control_id.as_slice())?;
    let payload = shown(alloc, job.payload.as_slice())?;
    format!(in alloc;
        "message {} to {}, attempt {}, control id {id}, answered {}, {payload}",
        ticket.number, ticket.destination, ticket.attempt, job.ack
    )
}

/// What is kept of a message, and the connection over which it arrived, if that is known.
///
/// # Errors
///
/// Where memory is refused.
pub(crate) fn letter_shown(
    alloc: Global,
    letter: &Outbound,
    conn: Option<u32>,
) -> Result<String, AllocError> {
    let id = shown(alloc, letter.control_id())?;
    let text = shown(alloc, letter.raw().as_slice())?;
    format!(in alloc;
        "entry {}, connection {conn:?}, channel {}, control id {id}, {text}",
        letter.place(),
        letter.channel()
    )
}

/// How full a book is, as a line shows it.
///
/// # Errors
///
/// Where memory is refused.
pub(crate) fn gauge_shown<S: BookRows>(
    alloc: Global,
    book: &Book<S>,
) -> Result<String, AllocError> {
    let tight = if book.is_tight() {
        "tight"
    } else {
        "not tight"
    };
    format!(in alloc;
        "holds {}, owes {} of {}, remembers {} from {}, {} prunings, {} deployments, {tight}",
        book.held(),
        book.owed(),
        book.events_max(),
        book.remembered(),
        book.first_remembered(),
        book.prunings(),
        book.deployments()
    )
}

/// Numbers, each after a space.
///
/// # Errors
///
/// Where memory is refused.
pub(crate) fn numbers_shown(alloc: Global, numbers: &[u32]) -> Result<String, AllocError> {
    let mut line = format!(in alloc; "{} found:", numbers.len())?;
    for number in numbers {
        line = format!(in alloc; "{line} {number}")?;
    }
    Ok(line)
}

/// Messages of a queue with their states, each after a space.
///
/// # Errors
///
/// Where memory is refused.
pub(crate) fn fronts_shown(alloc: Global, fronts: &[Front]) -> Result<String, AllocError> {
    let mut line = format!(in alloc; "{} found:", fronts.len())?;
    for front in fronts {
        line = format!(in alloc; "{line} {} {:?}", front.number, front.state)?;
    }
    Ok(line)
}

/// The arrival of bytes.
fn arrival_shown(
    alloc: Global,
    conn: u32,
    channel: u32,
    raw: &[u8],
    told: Told,
) -> Result<String, AllocError> {
    let text = shown(alloc, raw)?;
    format!(in alloc; "arrival by {conn} on {channel}, {told:?}, {text}")
}

/// The beginning of an attempt.
fn take_shown(alloc: Global, ticket: Ticket, now: Moment) -> Result<String, AllocError> {
    format!(in alloc;
        "take {} {} {} at {}",
        ticket.number,
        ticket.destination,
        ticket.attempt,
        now.secs()
    )
}

/// The end of an attempt.
fn settle_shown(
    alloc: Global,
    ticket: Ticket,
    outcome: Outcome,
    now: Moment,
    state: SlotState,
) -> Result<String, AllocError> {
    format!(in alloc;
        "settle {} {} {} {outcome:?} at {}: {state:?}",
        ticket.number,
        ticket.destination,
        ticket.attempt,
        now.secs()
    )
}

/// The deployment of a plan.
fn deploy_shown(alloc: Global, plan: &Plan) -> Result<String, AllocError> {
    format!(in alloc; "deploy {} to {}", plan.channels(), plan.destinations())
}

/// An entry, as a line shows it.
///
/// # Errors
///
/// Where memory is refused.
pub(crate) fn entry_shown(alloc: Global, entry: &Entry) -> Result<String, AllocError> {
    match entry {
        Entry::Arrival {
            conn,
            channel,
            raw,
            told,
        } => arrival_shown(alloc, *conn, *channel, raw.as_slice(), *told),
        Entry::Take { ticket, now } => take_shown(alloc, *ticket, *now),
        Entry::Settle {
            ticket,
            outcome,
            now,
            state,
        } => settle_shown(alloc, *ticket, *outcome, *now, state.get()),
        Entry::Cancel {
            number,
            among: u32::MAX,
            mask,
        } => format!(in alloc; "cancel {number} where {mask} says"),
        Entry::Cancel {
            number,
            among,
            mask,
        } => format!(in alloc; "cancel {number} among {among} where {mask} says"),
        Entry::Deploy { plan } => deploy_shown(alloc, plan.plan()),
    }
}

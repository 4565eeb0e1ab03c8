//! What is kept of messages.

use crate::cancellations::control_id_of;
use crate::holds::add_held;
use crate::noted::{add_delivery, add_fate, add_reception, delivery_of, is_begun};
use crate::time::Utc;
use book_core::{Failure, Front};
use book_lock::{Found, Message};
use dest_queue::{FailCause, SlotState};
use er7_tree::{Message as Tree, Refusal};
use hl7_head::Header;
use log_text::Shown;
use message_notes::MessageNote;
use plan_text::Plan;
use std::alloc::{AllocError, Global};

/// The most messages that an answer lists.
pub const SHOWN_MAX: usize = 100;

/// Adds the state of a message at a destination.
///
/// # Errors
///
/// Where memory is refused.
pub(crate) fn add_state(text: &mut String, state: SlotState) -> Result<(), AllocError> {
    match state {
        SlotState::Waiting { attempts, due } => {
            write!(text, "waiting attempts {attempts} due {}", Utc(due))
        }
        SlotState::InFlight { attempt } => write!(text, "in flight attempt {attempt}"),
        SlotState::Delivered => write!(text, "delivered"),
        SlotState::Failed(FailCause::Rejected) => write!(text, "failed rejected"),
        SlotState::Failed(FailCause::Exhausted) => write!(text, "failed no attempt left"),
        SlotState::Failed(FailCause::Cancelled) => write!(text, "failed cancelled"),
    }
}

/// The header of a message's bytes (MSH, HL7 v2.5.1, 2.15.9), none where they can't be read.
///
/// # Errors
///
/// Where memory is refused.
pub(crate) fn header_of(alloc: Global, raw: &[u8]) -> Result<Option<Header>, AllocError> {
    match Tree::parse(alloc, raw) {
        Ok(tree) => Ok(Some(Header::read(&tree)?)),
        Err(Refusal::NoMemory) => Err(AllocError),
        Err(_) => Ok(None),
    }
}

/// Adds what a header says of the sender, the message's type and its control id: MSH-3, MSH-4, MSH-9 and MSH-10.
fn add_header(text: &mut String, header: &Header) -> Result<(), AllocError> {
    let application = Shown(header.sending_application());
    let facility = Shown(header.sending_facility());
    let (code, event) = (Shown(header.message_code()), Shown(header.trigger_event()));
    writeln!(text, "sending_application {application}")?;
    writeln!(text, "sending_facility {facility}")?;
    writeln!(text, "message_type {code}^{event}")?;
    writeln!(text, "control_id {}", Shown(header.control_id()))
}

/// Adds where a message was received, and what its header says.
fn add_origin(
    alloc: Global,
    text: &mut String,
    plan: &Plan,
    message: &Message,
) -> Result<(), AllocError> {
    if let Some(channel) = plan.channel(message.channel) {
        writeln!(text, "channel {}", channel.name())?;
    }
    match message.conn {
        Some(connection) => writeln!(text, "connection {connection}")?,
        None => writeln!(text, "connection forgotten")?,
    }
    let raw = message.raw.as_slice();
    if let Some(header) = header_of(alloc, raw)? {
        add_header(&mut *text, &header)?;
    }
    writeln!(text, "length {}", raw.len())
}

/// Adds a line for each destination to which a message goes, with its state there, its last attempt and its end.
fn add_states(
    text: &mut String,
    plan: &Plan,
    message: &Message,
    note: &Option<MessageNote>,
) -> Result<(), AllocError> {
    for (index, state) in (0..plan.destinations()).zip(message.states.iter()) {
        if let (Some(destination), Some(state)) = (plan.destination(index), *state) {
            write!(text, "destination {} ", destination.name())?;
            add_state(&mut *text, state)?;
            add_delivery(&mut *text, delivery_of(note, index), is_begun(state))?;
            writeln!(text, "")?;
        }
    }
    Ok(())
}

/// Where a message is: what is kept of it, and what is noted about it beside the book; or that it is forgotten, or that no message has its number yet.
///
/// # Errors
///
/// Where memory is refused.
pub fn message_text(
    alloc: Global,
    plan: &Plan,
    found: &Found,
    note: &Option<MessageNote>,
) -> Result<String, AllocError> {
    let mut text = String::new(alloc);
    match found {
        Found::ToCome => writeln!(text, "no such message")?,
        Found::Forgotten => writeln!(text, "forgotten")?,
        Found::Kept(message) => {
            add_reception(&mut text, note.as_ref())?;
            writeln!(text, "")?;
            add_origin(alloc, &mut text, plan, message)?;
            add_fate(&mut text, &message.states)?;
            add_states(&mut text, plan, message, note)?;
        }
    }
    writeln!(text, "")?;
    Ok(text)
}

/// The message numbers that a search found, oldest first: the first hundred, and whether there are more.
///
/// # Errors
///
/// Where memory is refused.
pub fn found_text(alloc: Global, numbers: &[u32]) -> Result<String, AllocError> {
    let mut text = String::new(alloc);
    for number in numbers.iter().take(SHOWN_MAX) {
        writeln!(text, "message {number}")?;
    }
    if numbers.len() > SHOWN_MAX {
        writeln!(text, "more than {SHOWN_MAX}")?;
    } else {
        writeln!(text, "found {}", numbers.len())?;
    }
    writeln!(text, "")?;
    Ok(text)
}

/// A message in a destination's queue.
#[derive(Drop)]
pub struct Listed {
    /// Its number and its state at the destination.
    pub front: Front,
    /// What the book says of it.
    pub found: Found,
    /// What is noted about it beside the book.
    pub note: Option<MessageNote>,
}

/// Adds a message's number and its control id (MSH-10).
pub(crate) fn add_id(text: &mut String, number: u32, id: &[u8]) -> Result<(), AllocError> {
    write!(text, "message {number} control_id {}", Shown(id))
}

/// Adds a message's number, its control id (MSH-10) as received, and its state at a destination.
fn add_listed(alloc: Global, text: &mut String, listed: &Listed) -> Result<(), AllocError> {
    let Front { number, state } = listed.front;
    add_id(&mut *text, number, &control_id_of(alloc, &listed.found)?)?;
    write!(text, " ")?;
    add_state(&mut *text, state)
}

/// Adds when and from where a message in the queue of the destination at this index was received, and the last attempt there.
fn add_wait(text: &mut String, destination: u32, listed: &Listed) -> Result<(), AllocError> {
    write!(text, "; ")?;
    add_reception(&mut *text, listed.note.as_ref())?;
    let delivery = delivery_of(&listed.note, destination);
    add_delivery(text, delivery, is_begun(listed.front.state))
}

/// The first messages in the queue of the destination at this index, in order, and how many it has. Where the destination is held, its
/// name is given, and the text begins with that.
///
/// # Errors
///
/// Where memory is refused.
pub fn waiting_text(
    alloc: Global,
    held: Option<&str>,
    destination: u32,
    listed: &[Listed],
    all: u64,
) -> Result<String, AllocError> {
    let mut text = String::new(alloc);
    if let Some(name) = held {
        add_held(&mut text, name)?;
    }
    for message in listed {
        add_listed(alloc, &mut text, message)?;
        add_wait(&mut text, destination, message)?;
        writeln!(text, "")?;
    }
    writeln!(text, "waiting {all}")?;
    writeln!(text, "")?;
    Ok(text)
}

/// A message that failed at a destination.
#[derive(Drop)]
pub struct ListedFailure {
    /// Its number, and why it failed.
    pub failure: Failure,
    /// What the book says of it.
    pub found: Found,
    /// What is noted about it beside the book.
    pub note: Option<MessageNote>,
}

/// Messages that failed at the destination of this index, in the order given, and how many failed there in all, of which `remembered` are remembered.
///
/// # Errors
///
/// Where memory is refused.
pub fn failed_text(
    alloc: Global,
    destination: u32,
    listed: &[ListedFailure],
    remembered: u64,
    all: u64,
) -> Result<String, AllocError> {
    let mut text = String::new(alloc);
    for message in listed {
        let Failure { number, cause } = message.failure;
        add_id(&mut text, number, &control_id_of(alloc, &message.found)?)?;
        write!(text, " ")?;
        add_state(&mut text, SlotState::Failed(cause))?;
        let delivery = delivery_of(&message.note, destination);
        add_delivery(&mut text, delivery, true)?;
        writeln!(text, "")?;
    }
    write!(text, "failed {all}")?;
    if remembered < all {
        write!(text, ", of which {remembered} are remembered")?;
    }
    writeln!(text, "\n")?;
    Ok(text)
}

/// What is said of a message that is left undelivered at a destination: its number, its control id and its state there.
///
/// # Errors
///
/// Where memory is refused.
pub fn left_behind(alloc: Global, name: &str, listed: &Listed) -> Result<String, AllocError> {
    let mut text = format!(in alloc; "undelivered destination {name} ")?;
    add_listed(alloc, &mut text, listed)?;
    Ok(text)
}

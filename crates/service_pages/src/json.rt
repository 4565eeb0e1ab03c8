//! What is shown as JSON.

use crate::levels::is_unconnected;
use crate::view::{Phase, View};
use book_core::{Failure, Front};
use book_lock::{Found, Message};
use dest_queue::{FailCause, SlotState};
use er7_tree::{Message as Tree, Refusal};
use hl7_head::Header;
use log_text::ControlId;
use plan_text::Plan;
use service_answers::{
    Figures, Listed, ListedFailure, SHOWN_MAX, StoreNumbers, Utc, control_id_of,
};
use service_http::Document;
use std::alloc::{AllocError, Global};

/// Adds a name and a number, as the first of an object.
fn add_first(document: &mut Document, name: &'static str, number: u64) -> Result<(), AllocError> {
    document.markup("\"")?;
    document.markup(name)?;
    document.markup("\":")?;
    document.number(number)
}

/// Adds a name and a number behind others.
fn add_number(document: &mut Document, name: &'static str, number: u64) -> Result<(), AllocError> {
    document.markup(",")?;
    add_first(&mut *document, name, number)
}

/// Adds a name and a text behind others.
fn add_string(document: &mut Document, name: &'static str, text: &str) -> Result<(), AllocError> {
    document.markup(",\"")?;
    document.markup(name)?;
    document.markup("\":")?;
    document.string(text)
}

/// Adds a name and a moment, or null where there was none.
fn add_moment(
    alloc: Global,
    document: &mut Document,
    name: &'static str,
    moment: u64,
) -> Result<(), AllocError> {
    if moment == 0 {
        document.markup(",\"")?;
        document.markup(name)?;
        document.markup("\":null")
    } else {
        let text = format!(in alloc; "{}", Utc(moment))?;
        add_string(document, name, &text)
    }
}

/// The word for why a message failed.
fn cause_word(cause: FailCause) -> &'static str {
    match cause {
        FailCause::Rejected => "rejected",
        FailCause::Exhausted => "no attempt left",
        FailCause::Cancelled => "cancelled",
    }
}

/// Adds the state of a message at a destination, behind other members.
fn add_state(alloc: Global, document: &mut Document, state: SlotState) -> Result<(), AllocError> {
    match state {
        SlotState::Waiting { attempts, due } => {
            document.markup(",\"state\":\"waiting\"")?;
            add_number(&mut *document, "attempts", u64::from(attempts))?;
            add_moment(alloc, document, "due", due)
        }
        SlotState::InFlight { attempt } => {
            document.markup(",\"state\":\"in flight\"")?;
            add_number(document, "attempt", u64::from(attempt))
        }
        SlotState::Delivered => document.markup(",\"state\":\"delivered\""),
        SlotState::Failed(cause) => {
            document.markup(",\"state\":\"failed\"")?;
            add_string(document, "cause", cause_word(cause))
        }
    }
}

/// The word for how far the end is.
fn phase_word(phase: Phase) -> &'static str {
    match phase {
        Phase::Open => "open",
        Phase::Closing => "closing",
        Phase::Halted => "halted",
    }
}

/// Adds the arrivals that were not booked: by cause, and those that were answered as repeats.
fn add_unbooked(document: &mut Document, figures: &Figures) -> Result<(), AllocError> {
    document.markup(",\"unbooked\":{")?;
    add_first(&mut *document, "full", figures.unbooked.full)?;
    add_number(
        &mut *document,
        "plan_changed",
        figures.unbooked.plan_changed,
    )?;
    add_number(&mut *document, "no_memory", figures.unbooked.no_memory)?;
    document.markup("}")?;
    add_number(&mut *document, "repeats_unbooked", figures.repeats_unbooked)
}

/// Adds the members of the book, the connections and the arrivals.
fn add_book(document: &mut Document, view: &View<'_>) -> Result<(), AllocError> {
    let gauge = view.status.gauge;
    document.markup(",\"book\":{")?;
    add_first(&mut *document, "held", gauge.held as u64)?;
    add_number(&mut *document, "owed", u64::from(gauge.owed))?;
    add_number(&mut *document, "max", u64::from(gauge.events_max))?;
    add_number(&mut *document, "messages", u64::from(gauge.messages))?;
    add_number(&mut *document, "remembered", u64::from(gauge.remembered()))?;
    add_number(&mut *document, "prunings", u64::from(gauge.prunings))?;
    add_number(&mut *document, "deployments", u64::from(gauge.deployments))?;
    document.markup("},\"connections\":{")?;
    add_first(&mut *document, "open", u64::from(view.figures.open))?;
    add_number(&mut *document, "taken", u64::from(gauge.admitted))?;
    add_number(&mut *document, "refused", view.figures.refused)?;
    document.markup("}")?;
    add_unbooked(&mut *document, view.figures)?;
    document.markup(",\"dropped\":{")?;
    add_first(
        &mut *document,
        "unreadable",
        view.figures.dropped.unreadable,
    )?;
    add_number(
        &mut *document,
        "acknowledgments",
        view.figures.dropped.acknowledgments,
    )?;
    add_number(&mut *document, "broken", view.figures.dropped.broken)?;
    document.markup("}")
}

/// Adds what was written to the store, or null where there is none.
fn add_store(document: &mut Document, store: Option<StoreNumbers>) -> Result<(), AllocError> {
    let Some(store) = store else {
        return document.markup(",\"store\":null");
    };
    document.markup(",\"store\":{")?;
    add_first(&mut *document, "commits", store.commits)?;
    add_number(&mut *document, "changes", store.changes)?;
    add_number(&mut *document, "average_microseconds", store.average())?;
    add_number(&mut *document, "longest_microseconds", store.longest)?;
    document.markup(if store.has_no_room {
        ",\"has_room\":false}"
    } else {
        ",\"has_room\":true}"
    })
}

/// Adds the channels.
fn add_channels(alloc: Global, document: &mut Document, view: &View<'_>) -> Result<(), AllocError> {
    document.markup(",\"channels\":[")?;
    view.plan.rules();
    for index in 0..view.plan.channels() {
        let Some(channel) = view.plan.channel(index) else {
            break;
        };
        let counts = view.status.counts.channel(index);
        document.markup(if index > 0 {
            ",{\"name\":"
        } else {
            "{\"name\":"
        })?;
        document.string(channel.name())?;
        add_string(&mut *document, "listen", channel.listen())?;
        document.markup(if view.figures.is_paused(index) {
            ",\"paused\":true"
        } else {
            ",\"paused\":false"
        })?;
        add_number(&mut *document, "open", view.figures.channel_open(index))?;
        add_number(&mut *document, "places", view.figures.channel_places(index))?;
        add_number(&mut *document, "received", counts.received)?;
        add_number(&mut *document, "filtered", counts.filtered)?;
        add_number(&mut *document, "accepted", counts.accepted)?;
        add_number(&mut *document, "refused", counts.refused)?;
        add_number(&mut *document, "repeats", counts.repeats)?;
        add_moment(
            alloc,
            &mut *document,
            "last_received",
            view.figures.received(index),
        )?;
        document.markup("}")?;
    }
    document.markup("]")
}

/// Whether a destination is connected, as a member; null where no connection was tried yet.
fn connected_markup(view: &View<'_>, destination: u32) -> &'static str {
    if view.figures.is_connected(destination) {
        ",\"connected\":true"
    } else if is_unconnected(view, destination) {
        ",\"connected\":false"
    } else {
        ",\"connected\":null"
    }
}

/// Adds the destinations.
fn add_destinations(
    alloc: Global,
    document: &mut Document,
    view: &View<'_>,
) -> Result<(), AllocError> {
    document.markup(",\"destinations\":[")?;
    view.plan.rules();
    for index in 0..view.plan.destinations() {
        let Some(destination) = view.plan.destination(index) else {
            break;
        };
        let counts = view.status.counts.destination(index);
        document.markup(if index > 0 {
            ",{\"name\":"
        } else {
            "{\"name\":"
        })?;
        document.string(destination.name())?;
        add_string(&mut *document, "address", destination.address())?;
        document.markup(if view.figures.is_held(index) {
            ",\"held\":true"
        } else {
            ",\"held\":false"
        })?;
        document.markup(connected_markup(view, index))?;
        add_number(&mut *document, "waiting", counts.waiting)?;
        add_number(&mut *document, "inflight", counts.inflight)?;
        add_number(&mut *document, "delivered", counts.delivered)?;
        add_number(&mut *document, "failed", counts.failed)?;
        add_number(&mut *document, "attempts", counts.attempts)?;
        add_number(&mut *document, "sent_again", view.figures.sent_again(index))?;
        add_moment(
            alloc,
            &mut *document,
            "last_delivered",
            view.figures.delivered(index),
        )?;
        match view.status.fronts.get(index as usize) {
            Some(Some(front)) => {
                document.markup(",\"front\":{")?;
                add_first(&mut *document, "message", u64::from(front.number))?;
                add_state(alloc, &mut *document, front.state)?;
                add_moment(alloc, &mut *document, "since", view.watch.since(index))?;
                document.markup("}")?;
            }
            _ => document.markup(",\"front\":null")?,
        }
        add_moment(
            alloc,
            &mut *document,
            "last_failed",
            view.watch.failed_at(index),
        )?;
        document.markup("}")?;
    }
    document.markup("]")
}

/// The status as JSON.
///
/// # Errors
///
/// Where memory is refused.
pub fn status_json(alloc: Global, view: &View<'_>) -> Result<Vec<u8>, AllocError> {
    let mut document = Document::new(alloc);
    document.markup("{\"stage\":\"")?;
    document.markup(phase_word(view.phase))?;
    document.markup("\"")?;
    add_moment(alloc, &mut document, "now", view.figures.now)?;
    add_moment(alloc, &mut document, "started", view.figures.started)?;
    add_book(&mut document, view)?;
    add_store(&mut document, view.figures.store)?;
    add_channels(alloc, &mut document, view)?;
    add_destinations(alloc, &mut document, view)?;
    document.markup("}\n")?;
    Ok(document.into_bytes())
}

/// The header of a message's bytes, none where they can't be read.
fn header_of(alloc: Global, raw: &[u8]) -> Result<Option<Header>, AllocError> {
    match Tree::parse(alloc, raw) {
        Ok(tree) => Ok(Some(Header::read(&tree)?)),
        Err(Refusal::NoMemory) => Err(AllocError),
        Err(_) => Ok(None),
    }
}

/// Adds what a header says of the sender, the message's type and its control id, as the log shows it.
fn add_header(alloc: Global, document: &mut Document, header: &Header) -> Result<(), AllocError> {
    let application = format!(in alloc; "{}", ControlId(header.sending_application()))?;
    add_string(&mut *document, "sending_application", &application)?;
    let facility = format!(in alloc; "{}", ControlId(header.sending_facility()))?;
    add_string(&mut *document, "sending_facility", &facility)?;
    let (code, event) = (
        ControlId(header.message_code()),
        ControlId(header.trigger_event()),
    );
    let message_type = format!(in alloc; "{code}^{event}")?;
    add_string(&mut *document, "message_type", &message_type)?;
    let id = format!(in alloc; "{}", ControlId(header.control_id()))?;
    add_string(document, "control_id", &id)
}

/// Adds what is kept of a message.
fn add_message(
    alloc: Global,
    document: &mut Document,
    plan: &Plan,
    message: &Message,
) -> Result<(), AllocError> {
    document.markup(",\"state\":\"kept\"")?;
    if let Some(channel) = plan.channel(message.channel) {
        add_string(&mut *document, "channel", channel.name())?;
    }
    match message.conn {
        Some(connection) => add_number(&mut *document, "connection", u64::from(connection))?,
        None => document.markup(",\"connection\":null")?,
    }
    let raw = message.raw.as_slice();
    if let Some(header) = header_of(alloc, raw)? {
        add_header(alloc, &mut *document, &header)?;
    }
    add_number(&mut *document, "length", raw.len() as u64)?;
    document.markup(",\"destinations\":[")?;
    let mut is_first = true;
    for (index, state) in (0..plan.destinations()).zip(message.states.iter()) {
        if let (Some(destination), Some(state)) = (plan.destination(index), *state) {
            document.markup(if is_first {
                "{\"name\":"
            } else {
                ",{\"name\":"
            })?;
            is_first = false;
            document.string(destination.name())?;
            add_state(alloc, &mut *document, state)?;
            document.markup("}")?;
        }
    }
    document.markup("]")
}

/// Where a message is, as JSON.
///
/// # Errors
///
/// Where memory is refused.
pub fn message_json(
    alloc: Global,
    plan: &Plan,
    number: u32,
    found: &Found,
) -> Result<Vec<u8>, AllocError> {
    let mut document = Document::new(alloc);
    document.markup("{")?;
    add_first(&mut document, "message", u64::from(number))?;
    match found {
        Found::ToCome => document.markup(",\"state\":\"no such message\"")?,
        Found::Forgotten => document.markup(",\"state\":\"forgotten\"")?,
        Found::Kept(message) => add_message(alloc, &mut document, plan, message)?,
    }
    document.markup("}\n")?;
    Ok(document.into_bytes())
}

/// The message numbers that a search found, as JSON: the first hundred, and whether there are more.
///
/// # Errors
///
/// Where memory is refused.
pub fn found_json(alloc: Global, numbers: &[u32]) -> Result<Vec<u8>, AllocError> {
    let mut document = Document::new(alloc);
    document.markup("{\"messages\":[")?;
    let mut is_first = true;
    for number in numbers.iter().take(SHOWN_MAX) {
        if !is_first {
            document.markup(",")?;
        }
        is_first = false;
        document.number(u64::from(*number))?;
    }
    document.markup(if numbers.len() > SHOWN_MAX {
        "],\"more\":true}\n"
    } else {
        "],\"more\":false}\n"
    })?;
    Ok(document.into_bytes())
}

/// Adds the number of a message of a list, and its control id (MSH-10).
fn add_listed(
    alloc: Global,
    document: &mut Document,
    is_first: bool,
    number: u32,
    found: &Found,
) -> Result<(), AllocError> {
    document.markup(if is_first { "{" } else { ",{" })?;
    add_first(&mut *document, "message", u64::from(number))?;
    let id = format!(in alloc; "{}", ControlId(&control_id_of(alloc, found)?))?;
    add_string(document, "control_id", &id)
}

/// The first messages in a destination's queue as JSON, and how many it has.
///
/// # Errors
///
/// Where memory is refused.
pub fn waiting_json(
    alloc: Global,
    name: &str,
    listed: &[Listed],
    all: u64,
) -> Result<Vec<u8>, AllocError> {
    let mut document = Document::new(alloc);
    document.markup("{\"destination\":")?;
    document.string(name)?;
    add_number(&mut document, "waiting", all)?;
    document.markup(",\"messages\":[")?;
    let mut is_first = true;
    for message in listed {
        let Front { number, state } = message.front;
        add_listed(alloc, &mut document, is_first, number, &message.found)?;
        is_first = false;
        add_state(alloc, &mut document, state)?;
        document.markup("}")?;
    }
    document.markup("]}\n")?;
    Ok(document.into_bytes())
}

/// Messages that failed at a destination as JSON, in the order given, and how many failed there in all, of which `remembered` are
/// remembered.
///
/// # Errors
///
/// Where memory is refused.
pub fn failed_json(
    alloc: Global,
    name: &str,
    listed: &[ListedFailure],
    remembered: u64,
    all: u64,
) -> Result<Vec<u8>, AllocError> {
    let mut document = Document::new(alloc);
    document.markup("{\"destination\":")?;
    document.string(name)?;
    add_number(&mut document, "failed", all)?;
    add_number(&mut document, "remembered", remembered)?;
    document.markup(",\"messages\":[")?;
    let mut is_first = true;
    for message in listed {
        let Failure { number, cause } = message.failure;
        add_listed(alloc, &mut document, is_first, number, &message.found)?;
        is_first = false;
        add_state(alloc, &mut document, SlotState::Failed(cause))?;
        document.markup("}")?;
    }
    document.markup("]}\n")?;
    Ok(document.into_bytes())
}

//! The lines of the log about what was received over a connection. None has data of a message but its control id.

use crate::report::{ServeEnd, ServeReport};
use book_core::{NotBooked, Receipt};
use book_lock::Gauge;
use er7_tree::{Message, Refusal};
use event_log::Told;
use fixed_numbers::{CARRIAGE_RETURN, LINE_FEED};
use hl7_head::Cause;
use hl7_transform::StopCause;
use judge_core::Judged;
use log::{Level, Log, log, warn};
use log_text::ControlId;
use memchr::memchr;
use mllp_frame::Break;
use plan_text::{Channel, Plan};
use std::alloc::{AllocError, Global};
use stopped_step::{StoppedStep, stop_of};

/// Why a step can't be applied, in words.
fn reason(cause: StopCause) -> &'static str {
    match cause {
        StopCause::NoSuchSegment => "the message has no such segment",
        StopCause::NotInTable => "the value is not in the table, and there is no default",
    }
}

/// The name of the destination to which a route of a channel leads, by the route's index; empty where there is none.
fn route_name<'p>(plan: &'p Plan, channel: &Channel, index: usize) -> &'p str {
    match channel.routes().get(index) {
        Some(route) => match plan.destination(route.to()) {
            Some(destination) => destination.name(),
            None => "",
        },
        None => "",
    }
}

/// The name of a channel, by its index in the plan.
fn channel_name(plan: &Plan, channel: u32) -> &str {
    match plan.channel(channel) {
        Some(channel) => channel.name(),
        None => "",
    }
}

/// The control id of a message, MSH-10; empty where the text is no message.
fn control_id(judged: &Judged) -> ControlId<'_> {
    match judged.header() {
        Some(header) => ControlId(header.control_id()),
        None => ControlId(b""),
    }
}

/// The step at which a message stopped that was refused for a step.
fn stop_in(alloc: Global, judged: &Judged) -> Result<Option<StoppedStep>, AllocError> {
    let plan = judged.plan();
    plan.rules();
    let Some(channel) = plan.channel(judged.channel()) else {
        return Ok(None);
    };
    match Message::parse(alloc, judged.raw().as_slice()) {
        Ok(message) => stop_of(channel, message),
        Err(_) => Ok(None),
    }
}

/// Logs what happened to a message, with its channel, its connection and its control id.
fn log_message<H: Log>(rt: &H, level: Level, conn: u32, judged: &Judged, text: &str) {
    let name = channel_name(judged.plan(), judged.channel());
    let id = control_id(judged);
    log!(rt; level, channel = name, connection = conn, control_id:% = id; "{text}");
}

/// Logs that a message was refused for a step that all routes of its channel share: which one, counted from 1.
fn log_stopped<H: Log>(rt: &H, conn: u32, judged: &Judged, cause: Cause, stop: StoppedStep) {
    let name = channel_name(judged.plan(), judged.channel());
    let id = control_id(judged);
    let (step, why) = (stop.step.saturating_add(1), reason(stop.cause));
    warn!(rt; channel = name, connection = conn, control_id:% = id, step; "message refused: {cause:?}, {why}");
}

/// Logs that a message was refused for a step of this route.
fn log_stopped_at<H: Log>(
    rt: &H,
    conn: u32,
    judged: &Judged,
    route: &str,
    cause: Cause,
    stop: StoppedStep,
) {
    let name = channel_name(judged.plan(), judged.channel());
    let id = control_id(judged);
    let (step, why) = (stop.step.saturating_add(1), reason(stop.cause));
    warn!(rt; channel = name, connection = conn, control_id:% = id, route, step; "message refused: {cause:?}, {why}");
}

/// Logs that a message was refused, with the cause.
fn log_cause<H: Log>(rt: &H, conn: u32, judged: &Judged, cause: Cause) {
    let name = channel_name(judged.plan(), judged.channel());
    let id = control_id(judged);
    warn!(rt; channel = name, connection = conn, control_id:% = id; "message refused: {cause:?}");
}

/// Logs that a message was not booked, with the cause.
fn log_unbooked<H: Log>(rt: &H, conn: u32, judged: &Judged, refusal: NotBooked) {
    let name = channel_name(judged.plan(), judged.channel());
    let id = control_id(judged);
    warn!(rt; channel = name, connection = conn, control_id:% = id; "message not booked: {refusal:?}");
}

/// Logs that a message was refused, with the cause, and the step where a step is the cause.
fn log_refused<H: Log>(rt: &H, alloc: Global, conn: u32, judged: &Judged, cause: Cause) {
    let by_step = matches!(cause, Cause::SourceTransform | Cause::RouteTransform);
    let stop = if by_step {
        stop_in(alloc, judged)
    } else {
        Ok(None)
    };
    let plan = judged.plan();
    match (stop, plan.channel(judged.channel())) {
        (Ok(Some(stop)), Some(channel)) => match stop.route {
            Some(index) => {
                let route = route_name(plan, channel, index);
                log_stopped_at(rt, conn, judged, route, cause, stop);
            }
            None => log_stopped(rt, conn, judged, cause, stop),
        },
        _ => log_cause(rt, conn, judged, cause),
    }
}

/// Whether the header segment holds a line feed, as it does where a sender ends segments with line feeds.
fn has_line_feed(raw: &[u8]) -> bool {
    let end = memchr(CARRIAGE_RETURN, raw).unwrap_or(raw.len());
    match raw.get(..end) {
        Some(header) => memchr(LINE_FEED, header).is_some(),
        None => false,
    }
}

/// Logs what an operator has to know of a message received: that it was refused, repeated or not booked, or that its
/// segments end with line feeds.
pub fn log_arrival<H: Log>(
    rt: &H,
    alloc: Global,
    conn: u32,
    judged: &Judged,
    outcome: &Result<Receipt, NotBooked>,
) {
    match outcome {
        Ok(
            Receipt {
                told: Told::Refused(cause),
                ..
            },
        ) => log_refused(rt, alloc, conn, judged, *cause),
        Ok(
            Receipt {
                told: Told::Repeat(_),
                ..
            },
        ) => log_message(rt, Level::Info, conn, judged, "message repeated"),
        Ok(_) => {}
        Err(refusal) => log_unbooked(rt, conn, judged, *refusal),
    }
    if has_line_feed(judged.raw().as_slice()) {
        let text = "MSH holds a line feed: segments have to end with a carriage return";
        log_message(rt, Level::Warn, conn, judged, text);
    }
}

/// Logs a message that is answered as a repeat without being booked, since the book is full.
pub fn log_repeat<H: Log>(rt: &H, conn: u32, judged: &Judged) {
    let text = "message repeated, and not booked again: the book is full";
    log_message(rt, Level::Info, conn, judged, text);
}

/// Logs a message that is not booked since its connection was reset before.
pub fn log_cut<H: Log>(rt: &H, conn: u32, judged: &Judged) {
    let text = "message dropped: its connection was reset before it was booked";
    log_message(rt, Level::Info, conn, judged, text);
}

/// Logs a block that is no message, with the reason, or an acknowledgment that nothing waits for.
pub fn log_passed_over<H: Log>(rt: &H, alloc: Global, conn: u32, judged: &Judged) {
    let name = channel_name(judged.plan(), judged.channel());
    if judged.header().is_some() {
        let text = "acknowledgment received and dropped";
        log_message(rt, Level::Warn, conn, judged, text);
        return;
    }
    match Message::parse(alloc, judged.raw().as_slice()) {
        Err(Refusal::NoMemory) => {
            warn!(rt; channel = name, connection = conn; "text unreadable");
        }
        Err(Refusal::BadSegmentName(segment)) => {
            warn!(rt; channel = name, connection = conn, segment; "text unreadable: a segment has a bad name");
        }
        Err(refusal) => {
            warn!(rt; channel = name, connection = conn; "text unreadable: {refusal}");
        }
        Ok(_) => {}
    }
}

/// Logs a block that was broken, with the reason (MLLP Release 1, block format).
pub fn log_break<H: Log>(rt: &H, plan: &Plan, conn: u32, channel: u32, cause: Break) {
    let name = channel_name(plan, channel);
    let why = match cause {
        Break::NewStart => "a start block character in its data",
        Break::BadEnd => "an end block character that no carriage return follows",
        Break::TooLong => "more than 1048576 bytes of data",
    };
    warn!(rt; channel = name, connection = conn; "block broken: {why}");
}

/// How much of a book is held or owed, in percent of its bound.
fn fill(gauge: Gauge) -> u64 {
    let taken = (gauge.held as u64).saturating_add(u64::from(gauge.owed));
    taken.saturating_mul(100) / u64::from(gauge.events_max.max(1))
}

/// Logs that a book is more than 80 or 90 percent full, where it is: from 100 percent on every message is refused as Full.
pub fn log_fill<H: Log>(rt: &H, gauge: Gauge) {
    let (held, owed, events_max) = (gauge.held, gauge.owed, gauge.events_max);
    match fill(gauge) {
        0..=80 => {}
        81..=90 => warn!(rt; held, owed, events_max; "book above 80 % of its entries"),
        _ => warn!(rt; held, owed, events_max; "book above 90 % of its entries"),
    }
}

/// How serious it is that a connection ended so, and why it did, in words. One that was read to its end ended since the service stops,
/// where it does.
pub fn why_ended(end: ServeEnd, stops: bool) -> (Level, &'static str) {
    match end {
        ServeEnd::End if stops => (Level::Info, "the service stops"),
        ServeEnd::End => (Level::Info, "closed by the sender"),
        ServeEnd::ReadFault => (Level::Info, "reading from the sender failed"),
        ServeEnd::WriteFault => (Level::Info, "writing to the sender failed"),
        ServeEnd::NoMemory => (Level::Warn, "out of memory"),
        ServeEnd::TurnBound => (Level::Warn, "it brought more than one connection may"),
        ServeEnd::NotPersisted => (
            Level::Warn,
            "the store has failed, so what was received last is not acknowledged",
        ),
    }
}

/// Logs that a connection ended, why, and what it brought: this number of booked messages, and what the report counts. A
/// connection that was read to its end ended since the service stops, where it does.
pub fn log_end<H: Log, K>(
    rt: &H,
    channel: &str,
    connection: u32,
    booked: u64,
    report: &ServeReport<K>,
    stops: bool,
) {
    let (level, why) = why_ended(report.end, stops);
    let ServeReport {
        unbooked,
        unreadable,
        strays,
        breaks,
        ..
    } = *report;
    log!(rt; level, channel, connection, booked, unbooked, unreadable, strays, breaks; "connection ended: {why}");
}

//! The measured calls. Each returns none where a call was refused.

ghost use Rattle.std.specs.Prelude.{IsTrue};
ghost use Rattle.judge_core.specs.Judging.{is_bookable};

use crate::message::{ADMISSION, FEW, MANY, Rows, judged, nanoseconds_since};
use book_core::{Book, Told};
use dest_queue::Outcome;
use event_log::Ticket;
use hl7_head::Moment;
use judge_core::Judged;
use std::ops::Range;
use std::time::Instant;

/// How many messages are sent often: the first of the book.
const SENT_OFTEN: u32 = 10;

/// Nanoseconds of all measured calls, by their kind.
#[derive(Clone, Copy)]
pub struct Times {
    /// Of twice as many calls as there are of each other kind.
    pub arrive: u64,
    pub take: u64,
    pub settle: u64,
    /// A take of a message whose row is behind those of all others.
    pub behind: u64,
    pub cancel: u64,
}

/// Books a message, and returns how long that took.
fn timed_arrival(rt: &HostRuntime, book: &mut Book<Rows>, message: &Judged) -> Option<u64>
    requires { IsTrue (is_bookable message.now.raw) }
{
    let began = Instant::now(rt).ok();
    let receipt = book.arrive(0, message);
    let took = nanoseconds_since(rt, began);
    if matches!(receipt.ok()?.told, Told::Accepted(_)) {
        took
    } else {
        None
    }
}

/// Books an admission with this control id that arrives on a channel, and returns how long that took.
fn booked(rt: &HostRuntime, book: &mut Book<Rows>, channel: u32, control_id: u32) -> Option<u64> {
    let message = judged(rt.alloc(), book.plan(), channel, ADMISSION, control_id)?;
    timed_arrival(rt, book, &message)
}

/// Books the messages of these ids, which were not booked yet, and returns how long that took.
fn arrivals(rt: &HostRuntime, book: &mut Book<Rows>, channel: u32, ids: Range<u32>) -> Option<u64> {
    let mut took = 0_u64;
    for control_id in ids {
        took = took.saturating_add(booked(rt, book, channel, control_id)?);
    }
    Some(took)
}

/// Takes the front of a queue, and returns its ticket and how long that took.
fn taken(rt: &HostRuntime, book: &mut Book<Rows>, d: u32, now: Moment) -> Option<(Ticket, u64)> {
    let began = Instant::now(rt).ok();
    let job = book.take(d, now);
    let took = nanoseconds_since(rt, began);
    let ticket = job.ok()?.ticket;
    Some((ticket, took?))
}

/// Settles an attempt as one that is to be made again, and returns how long that took.
fn settled(rt: &HostRuntime, book: &mut Book<Rows>, ticket: &Ticket, now: Moment) -> Option<u64> {
    let began = Instant::now(rt).ok();
    let state = book.settle(ticket, Outcome::Again, now);
    let took = nanoseconds_since(rt, began);
    state.ok().and(took)
}

/// Sends the front of a queue `times` times, and returns how long the takes and the settlements took.
fn sendings(rt: &HostRuntime, book: &mut Book<Rows>, d: u32, times: u32) -> Option<(u64, u64)> {
    let now = Moment::of_unix(1_700_000_000).ok()?;
    let mut takes = 0_u64;
    let mut settlements = 0_u64;
    for _ in 0..times {
        let (ticket, took) = taken(rt, book, d, now)?;
        takes = takes.saturating_add(took);
        settlements = settlements.saturating_add(settled(rt, book, &ticket, now)?);
    }
    Some((takes, settlements))
}

/// Cancels these messages, and returns how long that took.
fn cancellations(rt: &HostRuntime, book: &mut Book<Rows>, numbers: Range<u32>) -> Option<u64> {
    let mut took = 0_u64;
    for number in numbers {
        let began = Instant::now(rt).ok();
        let mask = book.cancel(number);
        took = took.saturating_add(nanoseconds_since(rt, began)?);
        mask.ok()?;
    }
    Some(took)
}

/// Books the messages of these ids, and cancels each at once.
pub(crate) fn book_and_cancel(
    rt: &HostRuntime,
    book: &mut Book<Rows>,
    ids: Range<u32>,
) -> Option<()> {
    for control_id in ids {
        let number = book.message_count();
        booked(rt, book, MANY, control_id)?;
        book.cancel(number).ok()?;
    }
    Some(())
}

/// Books messages that are sent often and left waiting, and then `messages` that are cancelled at once.
pub(crate) fn fill(rt: &HostRuntime, book: &mut Book<Rows>, messages: u32) -> Option<()> {
    arrivals(rt, book, FEW, 0..SENT_OFTEN)?;
    book_and_cancel(rt, book, 0..messages)
}

/// Measures calls of each kind on a book that is filled with messages.
pub(crate) fn measure(
    rt: &HostRuntime,
    book: &mut Book<Rows>,
    messages: u32,
    calls: u32,
) -> Option<Times> {
    let ids = messages..messages.saturating_add(calls.saturating_mul(2));
    let first = messages.saturating_add(SENT_OFTEN).saturating_add(calls);
    let arrive = arrivals(rt, book, MANY, ids)?;
    let (take, settle) = sendings(rt, book, FEW, calls)?;
    let (behind, _) = sendings(rt, book, MANY, calls)?;
    let cancel = cancellations(rt, book, first..first.saturating_add(calls))?;
    Some(Times {
        arrive,
        take,
        settle,
        behind,
        cancel,
    })
}

//! Books in which messages wait, and what is delivered of them.

ghost use Rattle.std.specs.Prelude.{◌≡◌, ◌+◌, IfSome, IsTrue, length};
ghost use Rattle.judge_core.specs.Judging.{is_bookable};
ghost use Rattle.event_log.specs.History.{next_place, plan_in_force};
ghost use Rattle.event_log.specs.Counting.{counted};

use crate::played::{Leaping, Looks, Played};
use book_core::{Book, BookRows, EVENTS_MAX, Outbound};
use book_lock::{Closed, LogEntry, Opened, Shared, Sharing, Station};
use conn_worker::Clock;
use delivery_worker::{DeliverReport, TakeRule, deliver, deliver_until};
use dest_queue::Queued;
use ghost_log::BlankLog;
use judge_core::{Judged, fits_block, judge};
use log::Log;
use plan_text::Plan;
use record_list::RecordList;
use std::alloc::Global;
use std::hash::RandomState;
use std::marker::Brand;
use std::sync::{Arc, Wait};
use std::time;

/// The rows of the tests' books.
pub type Rows = RecordList<Queued<Outbound>>;

/// Messages with the control ids M1 and M2.
pub const MESSAGES: [&str; 2] = [
    "MSH|^~\\&|REG|HOSP|ENG|HUB|20231114221300||ADT^A01^ADT_A01|M1|P|2.5.1\rPID|1||77^^^H\r",
    "MSH|^~\\&|REG|HOSP|ENG|HUB|20231114221300||ADT^A01^ADT_A01|M2|P|2.5.1\rPID|1||77^^^H\r",
];

/// The two as blocks.
pub const BLOCKS: [&str; 2] = [
    "\x0bMSH|^~\\&|REG|HOSP|ENG|HUB|20231114221300||ADT^A01^ADT_A01|M1|P|2.5.1\rPID|1||77^^^H\r\x1c\r",
    "\x0bMSH|^~\\&|REG|HOSP|ENG|HUB|20231114221300||ADT^A01^ADT_A01|M2|P|2.5.1\rPID|1||77^^^H\r\x1c\r",
];

/// A message on the first channel of a plan, judged by it. None where memory was refused.
pub(crate) fn judged(alloc: Global, plan: &Arc<Plan>, text: &str) -> Option<Judged>
    ensures { IfSome result (λ judged. IsTrue (is_bookable judged.raw)) }
{
    let raw = Vec::from_slice(alloc, text.as_bytes()).ok()?;
    if plan.channels() == 0 || !fits_block(&raw) {
        return None;
    }
    let judged = judge(alloc, plan, 0, raw).ok()?;
    if judged.bookable() {
        Some(judged)
    } else {
        None
    }
}

/// An empty book of the built-in plan. None where memory was refused.
fn empty_book<S: BookRows>(rt: &HostRuntime) -> Option<Book<S>> {
    let alloc = rt.alloc();
    let hasher = RandomState::new(rt).ok()?;
    let plan = Arc::new(alloc, Plan::built_in(alloc).ok()?).ok()?;
    Some(Book::new(alloc, plan, EVENTS_MAX, hasher))
}

/// Books messages received over connection 0. None where memory was refused.
fn fill<S: BookRows>(alloc: Global, book: &mut Book<S>, messages: &[&str]) -> Option<()> {
    for text in messages {
        let judged = judged(alloc, book.plan(), text)?;
        book.arrive(0, &judged).ok()?;
    }
    Some(())
}

/// A book of the built-in plan in which messages wait, at most two. None where memory was refused.
pub(crate) fn waiting<S: BookRows + Drop>(rt: &HostRuntime, messages: usize) -> Option<Book<S>> {
    let mut book = empty_book(rt)?;
    fill(rt.alloc(), &mut book, &MESSAGES[..messages.min(2)])?;
    Some(book)
}

/// How long it is delivered.
#[derive(Clone, Copy)]
pub enum Course {
    /// For this many turns at most.
    Turns(u64),
    /// Until it is halted, after this many looks.
    Looks(u32),
    /// Until it is held, after this many looks.
    Held(u32),
}

/// The result of delivering, and the book after it.
#[derive(Drop)]
pub struct Delivered<S: BookRows> {
    pub report: DeliverReport,
    pub closed: Closed<S>,
}

/// Delivers what waits at the last of the stations.
fn deliver_at<A: Sharing, S: BookRows, H: Wait + time::Clock + Log, C: Clock>(
    rt: &H,
    alloc: Global,
    shared: &Shared<A, S>,
    stations: &mut [Station<A>],
    link: &mut Played<'_>,
    clock: &mut C,
    course: Course,
) -> Option<DeliverReport> {
    let station = stations.last_mut()?;
    shared.finish(rt);
    let halt = match course {
        Course::Turns(turns) => {
            return Some(deliver(rt, alloc, shared, station, link, 0, clock, turns));
        }
        Course::Looks(looks) => Looks::new(looks),
        Course::Held(looks) => Looks::held_after(looks),
    };
    Some(deliver_until(
        rt,
        alloc,
        shared,
        station,
        link,
        0,
        TakeRule::Any,
        clock,
        &halt,
    ))
}

/// Shares a book, delivers what waits in it, and closes it. None where memory was refused for sharing it.
fn deliver_and_close<A: Sharing, S: BookRows + Drop, H: Wait + time::Clock + Log, C: Clock>(
    rt: &H,
    alloc: Global,
    book: Book<S>,
    log: BlankLog<LogEntry>,
    link: &mut Played<'_>,
    clock: &mut C,
    course: Course,
) -> Option<Delivered<S>>
    requires opening { book ≡ A.opening }
    requires log { log.table.shared.table_id ≡ A.table }
    requires counts { counted book ≡ A.counts }
    requires first { next_place book ≡ A.first }
    requires channels { length (plan_in_force book).channels ≡ A.channels }
    requires seats { (A.desks ≡ 0) × (A.stations ≡ 1) }
{
    let opened = Shared::<A, S>::new(alloc, book, 0, 1, log);
    let Opened {
        shared,
        desks,
        mut stations,
    } = opened.ok()?;
    let report = deliver_at(rt, alloc, &shared, &mut stations, link, clock, course)?;
    let closed = shared.close(desks, stations).ok()?;
    Some(Delivered { report, closed })
}

/// Delivers what waits in a book over a link by a clock. None where there is no book, or memory was refused for sharing it.
pub(crate) fn deliver_by<S: BookRows + Drop, H: Wait + time::Clock + Log, C: Clock>(
    rt: &H,
    alloc: Global,
    book: Option<Book<S>>,
    link: &mut Played<'_>,
    clock: &mut C,
    course: Course,
) -> Option<Delivered<S>> {
    let book = book?;
    let log = BlankLog::new(alloc).ok()?;
    deliver_and_close::<Brand, S, H, C>(rt, alloc, book, log, link, clock, course)
}

/// Delivers what waits in a book over a link, by a clock that leaps by twenty seconds at each look. None where there is no
/// book, or memory was refused for sharing it.
pub(crate) fn deliver_all<S: BookRows + Drop, H: Wait + time::Clock + Log>(
    rt: &H,
    alloc: Global,
    book: Option<Book<S>>,
    link: &mut Played<'_>,
    course: Course,
) -> Option<Delivered<S>> {
    let mut clock = Leaping {
        seconds: 0,
        leap: 20,
    };
    deliver_by(rt, alloc, book, link, &mut clock, course)
}

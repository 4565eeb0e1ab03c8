//! Runs of the workers of a book with one channel, to which two senders connect, and two destinations; and what comes of them.

ghost use Rattle.std.specs.Prelude.{◌≡◌, ◌+◌, length};
ghost use Rattle.event_log.specs.History.{next_place, plan_in_force};
ghost use Rattle.event_log.specs.Counting.{counted};
ghost use Rattle.engine_workers.specs.inner.Order.{AreFrom};

use book_core::{Book, EVENTS_MAX, Outbound, Receipt};
use book_lock::{Closed, Desk, LogEntry, Opened, Shared, Sharing, Station, audit, rising};
use conn_worker::{ServeEnd, ServeReport, Still, nearest};
use delivery_worker::{DeliverEnd, DeliverReport, Link};
use dest_queue::Queued;
use engine_workers::{
    Door, Finished, Incoming, Workers, desks_and_reports, run_workers, stations_and_reports,
};
use ghost_log::BlankLog;
use log::Log;
use plan_text::Plan;
use record_list::RecordList;
use stat_count::{Counts, DestinationCounts};
use std::alloc::Global;
use std::hash::RandomState;
use std::io::Write;
use std::marker::Brand;
use std::sync::{Arc, Wait};
use std::thread::Threads;
use std::time;

/// The rows of the books.
type Rows = RecordList<Queued<Outbound>>;

/// A channel whose messages all go to both of two destinations.
pub const PLAN: &str =
    "[[destination]]\nname = \"A\"\naddress = \"127.0.0.1:6671\"\n[[destination]]\nname = \"B\"\naddress = \"127.0.0.1:6672\"\n[[channel]]\nname = \"ADT\"\nlisten = \"127.0.0.1:6660\"\ntypes = [\"ADT\"]\nprocessing = [\"P\", \"T\"]\nversions = [\"2.5.1\"]\n[[channel.route]]\nto = \"A\"\n[[channel.route]]\nto = \"B\"\n";

/// A plan by its text. None where it is no plan, or memory is refused.
pub(crate) fn plan_of(alloc: Global, text: &str) -> Option<Arc<Plan>> {
    let plan = Plan::read(alloc, text.as_bytes()).ok()?;
    Arc::new(alloc, plan).ok()
}

/// How a run ended.
#[derive(Clone, Copy)]
pub enum Outcome {
    /// All messages of both senders are booked once and delivered to both destinations at their first attempt, and the audit
    /// finds nothing wrong.
    Right,
    /// Something else was booked, delivered or counted.
    Wrong,
    /// Memory or a thread was refused to the workers, or memory to a door.
    NotStarted,
    /// Memory was refused otherwise, or something was missing at the end.
    Missing,
}

/// What was shown at the end of a run, before the book was closed: the statistics, and how many arrivals each desk made.
#[derive(Clone, Copy)]
struct Shown {
    counts: Counts,
    made: (u64, u64),
}

/// What the workers leave: the desks and the stations, and what was reported at them.
#[derive(Drop)]
struct Left<A: Sharing> {
    desks: Vec<Desk<A>>,
    stations: Vec<Station<A>>,
    served: Vec<ServeReport>,
    delivered: Vec<DeliverReport>,
}

/// The result of a run. What was shown is none where a desk is missing.
#[derive(Drop)]
struct Ended {
    shown: Option<Shown>,
    closed: Closed<Rows>,
    served: Vec<ServeReport>,
    delivered: Vec<DeliverReport>,
}

/// What is shown at two desks.
fn shown_at<A: Sharing, H: Wait>(
    rt: &H,
    shared: &Shared<A, Rows>,
    desks: &mut [Desk<A>],
) -> Option<Shown> {
    let counts = shared.counts(rt, desks.first_mut()?);
    let made = (desks.first()?.made(), desks.last()?.made());
    Some(Shown { counts, made })
}

/// What workers leave that have ended. None where memory is refused.
fn left_by<A: Sharing, D: Drop, L: Link + Drop>(
    alloc: Global,
    worked: Finished<A, D, L>,
) -> Option<Left<A>> {
    let Finished {
        connections,
        outlets,
        ..
    } = worked;
    let (desks, served) = desks_and_reports(alloc, connections).ok()?;
    let (stations, delivered) = stations_and_reports(alloc, outlets).ok()?;
    Some(Left {
        desks,
        stations,
        served,
        delivered,
    })
}

/// Takes the book out of its lock, once the workers have ended. None where a share is missing.
fn close<A: Sharing, H: Wait>(rt: &H, shared: Shared<A, Rows>, left: Left<A>) -> Option<Ended> {
    let Left {
        mut desks,
        stations,
        served,
        delivered,
    } = left;
    let shown = shown_at(rt, &shared, &mut desks);
    let closed = shared.close(desks, stations).ok()?;
    Some(Ended {
        shown,
        closed,
        served,
        delivered,
    })
}

/// The receipts of all connections. None unless each has as many as it is to have, in rising places, and ended as it should.
fn receipts_of(alloc: Global, served: Vec<ServeReport>, each: u64) -> Option<Vec<Receipt>> {
    let mut all = Vec::new(alloc);
    for report in served {
        let ServeReport {
            mut receipts,
            end,
            ..
        } = report;
        if end != ServeEnd::End || receipts.len() as u64 != each || !rising(&receipts) {
            return None;
        }
        all.append(&mut receipts).ok()?;
    }
    Some(all)
}

/// Whether two connections were served to their end, and the audit of their receipts finds nothing wrong.
fn is_audited(alloc: Global, closed: &Closed<Rows>, served: Vec<ServeReport>, each: u64) -> bool {
    match receipts_of(alloc, served, each) {
        Some(receipts) => {
            receipts.len() as u64 == each.saturating_mul(2) && audit(closed, &receipts).is_ok()
        }
        None => false,
    }
}

/// Whether the messages that were received are those of both desks, each destination has delivered them all, and the
/// statistics shown before the close are those of the closed book.
fn counts_all(shown: Shown, closed: &Closed<Rows>, each: u64) -> bool {
    let all = each.saturating_mul(2);
    let delivered = DestinationCounts {
        waiting: 0,
        inflight: 0,
        delivered: all,
        failed: 0,
        attempts: all,
    };
    shown.counts == *closed.book().counts()
        && shown.made == (each, each)
        && shown.counts.channel(0).received == all
        && shown.counts.channel(0).accepted == all
        && shown.counts.destination(0) == delivered
        && shown.counts.destination(1) == delivered
}

/// Whether all messages were delivered to both destinations, each at its first attempt.
fn delivers_all(reports: &[DeliverReport], each: u64) -> bool {
    let all = each.saturating_mul(2);
    let due = DeliverReport {
        taken: all,
        delivered: all,
        again: 0,
        rejected: 0,
        end: DeliverEnd::Drained,
    };
    reports == [due, due].as_slice()
}

/// Whether a run comes out as it is to.
fn is_right(alloc: Global, ended: Ended, each: u64) -> bool {
    let Ended {
        shown,
        closed,
        served,
        delivered,
    } = ended;
    matches!(shown, Some(shown) if counts_all(shown, &closed, each))
        && is_audited(alloc, &closed, served, each)
        && delivers_all(&delivered, each)
}

/// Closes the book that workers have worked at, and judges the result.
fn close_and_judge<A: Sharing, H: Wait>(
    rt: &H,
    alloc: Global,
    shared: Shared<A, Rows>,
    left: Left<A>,
    each: u64,
) -> Outcome {
    let Some(ended) = close(rt, shared, left) else {
        return Outcome::Missing;
    };
    if is_right(alloc, ended, each) {
        Outcome::Right
    } else {
        Outcome::Wrong
    }
}

/// Has the workers of a shared book work to their end.
fn work<
    A: Sharing + Send + Sync,
    H: Wait + Threads + time::Clock + Log + Sync,
    R: Incoming + Send + Drop,
    W: Write + Send + Drop,
    D: Door<Reader = R, Writer = W> + Send + Drop,
    L: Link + Send + Drop,
>(
    rt: &H,
    alloc: Global,
    shared: &Shared<A, Rows>,
    staff: Workers<A, D, L>,
) -> Result<Left<A>, Outcome> {
    match run_workers(rt, alloc, shared, staff, 2, Still(nearest(0))) {
        Ok(worked) => left_by(alloc, worked).ok_or(Outcome::Missing),
        Err(_) => Err(Outcome::NotStarted),
    }
}

/// Has the workers of a shared book work to their end, closes it, and judges the result.
fn work_and_close<
    A: Sharing + Send + Sync,
    H: Wait + Threads + time::Clock + Log + Sync,
    R: Incoming + Send + Drop,
    W: Write + Send + Drop,
    D: Door<Reader = R, Writer = W> + Send + Drop,
    L: Link + Send + Drop,
>(rt: &H, alloc: Global, shared: Shared<A, Rows>, staff: Workers<A, D, L>, each: u64) -> Outcome {
    match work(rt, alloc, &shared, staff) {
        Ok(left) => close_and_judge(rt, alloc, shared, left, each),
        Err(outcome) => outcome,
    }
}

/// Shares a book between two desks and two stations, and runs its workers.
fn run<
    A: Sharing + Send + Sync,
    H: Wait + Threads + time::Clock + Log + Sync,
    R: Incoming + Send + Drop,
    W: Write + Send + Drop,
    D: Door<Reader = R, Writer = W> + Send + Drop,
    L: Link + Send + Drop,
>(
    rt: &H,
    alloc: Global,
    book: Book<Rows>,
    log: BlankLog<LogEntry>,
    doors: Vec<D>,
    links: Vec<L>,
    each: u64,
) -> Outcome
    requires opening { book ≡ A.opening }
    requires log { log.table.shared.table_id ≡ A.table }
    requires counts { counted book ≡ A.counts }
    requires first { next_place book ≡ A.first }
    requires channels { length (plan_in_force book).channels ≡ A.channels }
    requires seats { (A.desks ≡ 2) × (A.stations ≡ 2) }
    requires links { AreFrom L.leads_to 0 links.items }
{
    let opened = Shared::<A, Rows>::new(alloc, book, 2, 2, log);
    let Ok(
        Opened {
            shared,
            desks,
            stations,
        },
    ) = opened
    else {
        return Outcome::Missing;
    };
    let staff = Workers {
        desks,
        doors,
        stations,
        links,
    };
    work_and_close(rt, alloc, shared, staff, each)
}

/// Runs the workers of an empty book of a plan with one channel and two destinations. Each of two senders brings this many
/// messages through the door.
pub(crate) fn run_on<
    H: Wait + Threads + time::Clock + Log + Sync,
    R: Incoming + Send + Drop,
    W: Write + Send + Drop,
    D: Door<Reader = R, Writer = W> + Send + Drop,
    L: Link + Send + Drop,
>(
    rt: &H,
    alloc: Global,
    plan: Arc<Plan>,
    hasher: RandomState,
    doors: Vec<D>,
    links: Vec<L>,
    each: u64,
) -> Outcome
    requires { AreFrom L.leads_to 0 links.items }
{
    let Ok(log) = BlankLog::new(alloc) else {
        return Outcome::Missing;
    };
    let book = Book::new(alloc, plan, EVENTS_MAX, hasher);
    run::<Brand, H, R, W, D, L>(rt, alloc, book, log, doors, links, each)
}

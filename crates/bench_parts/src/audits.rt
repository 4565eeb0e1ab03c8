//! The audit of receipts, in the order of their arrivals and in the other one.

ghost use Rattle.std.specs.Prelude.{◌≡◌, ◌+◌, length};
ghost use Rattle.event_log.specs.History.{next_place, plan_in_force};
ghost use Rattle.event_log.specs.Counting.{counted};

use crate::desk::booked;
use crate::message::{RESULT, Rows, nanoseconds_since};
use book_core::{Book, Receipt};
use book_lock::{Closed, Desk, LogEntry, Opened, Shared, Sharing, audit};
use ghost_log::BlankLog;
use plan_text::Plan;
use std::alloc::Global;
use std::marker::Brand;
use std::sync::{Arc, Wait};
use std::time::{Clock, Instant};

/// Nanoseconds of the two audits.
#[derive(Clone, Copy)]
pub struct Audits {
    pub rising: u64,
    pub falling: u64,
}

/// Books messages, and appends their receipts.
fn push_receipts<A: Sharing, H: Wait + Clock>(
    rt: &H,
    alloc: Global,
    shared: &Shared<A, Rows>,
    desk: &mut Desk<A>,
    plan: &Arc<Plan>,
    receipts: &mut Vec<Receipt>,
    count: u32,
) -> Option<()> {
    for control_id in 0..count {
        let (receipt, _) = booked(rt, alloc, shared, desk, plan, RESULT, control_id)?;
        receipts.push(receipt).ok()?;
    }
    Some(())
}

/// Books messages, and returns their receipts.
fn receipts_of<A: Sharing, H: Wait + Clock>(
    rt: &H,
    alloc: Global,
    shared: &Shared<A, Rows>,
    desk: &mut Desk<A>,
    plan: &Arc<Plan>,
    count: u32,
) -> Option<Vec<Receipt>> {
    let mut receipts = Vec::new(alloc);
    push_receipts(rt, alloc, shared, desk, plan, &mut receipts, count)?;
    Some(receipts)
}

/// Books messages at the first desk, and returns their receipts.
fn first_receipts<A: Sharing, H: Wait + Clock>(
    rt: &H,
    alloc: Global,
    shared: &Shared<A, Rows>,
    desks: &mut Vec<Desk<A>>,
    count: u32,
) -> Option<Vec<Receipt>> {
    let desk = desks.get_mut(0)?;
    let plan = shared.plan(rt).ok()?;
    receipts_of(rt, alloc, shared, desk, &plan, count)
}

/// How long an audit takes, where the receipts are right.
fn time_audit<H: Clock>(rt: &H, closed: &Closed<Rows>, receipts: &[Receipt]) -> Option<u64> {
    let began = Instant::now(rt).ok();
    let answer = audit(closed, receipts);
    let took = nanoseconds_since(rt, began);
    answer.ok().and(took)
}

/// Books messages at a shared book and closes it. Returns the closed book and the receipts.
fn booked_and_closed<A: Sharing, H: Wait + Clock>(
    rt: &H,
    alloc: Global,
    book: Book<Rows>,
    log: BlankLog<LogEntry>,
    count: u32,
) -> Option<(Closed<Rows>, Vec<Receipt>)>
    requires opening { book ≡ A.opening }
    requires log { log.table.shared.table_id ≡ A.table }
    requires counts { counted book ≡ A.counts }
    requires first { next_place book ≡ A.first }
    requires channels { length (plan_in_force book).channels ≡ A.channels }
    requires seats { (A.desks ≡ 1) × (A.stations ≡ 0) }
{
    let opened = Shared::<A, Rows>::new(alloc, book, 1, 0, log);
    let Opened {
        shared,
        mut desks,
        stations,
    } = opened.ok()?;
    let receipts = first_receipts(rt, alloc, &shared, &mut desks, count);
    shared.close(desks, stations).ok().zip(receipts)
}

/// Audits receipts in their order and in the other one.
fn time_both<H: Clock>(
    rt: &H,
    closed: &Closed<Rows>,
    receipts: &mut Vec<Receipt>,
) -> Option<Audits> {
    let rising = time_audit(rt, closed, receipts)?;
    receipts.reverse();
    let falling = time_audit(rt, closed, receipts)?;
    Some(Audits { rising, falling })
}

/// How long the audits of the receipts of an empty book take that is shared and booked at. None where a message was
/// not booked, or memory was refused.
pub(crate) fn time_audits<H: Wait + Clock>(
    rt: &H,
    alloc: Global,
    book: Option<Book<Rows>>,
    count: u32,
) -> Option<Audits> {
    let log = BlankLog::new(alloc).ok()?;
    let (closed, mut receipts) = booked_and_closed::<Brand, H>(rt, alloc, book?, log, count)?;
    time_both(rt, &closed, &mut receipts)
}

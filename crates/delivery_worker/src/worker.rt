//! Delivering the messages of a destination's queue.

ghost use Rattle.std.specs.Prelude.{◌≡◌, ◌+◌, ◌*◌, ◌≤◌, [], ◌∷◌, IfOk, OnOk, OnErr};
ghost use Rattle.std.specs.Io.KnownBytes.{Keeps};
ghost use Rattle.fixed_numbers.specs.declared.serving.TheConstants.{RECEIVES_MAX};
ghost use Rattle.delivery_worker.specs.inner.Calls.{CallsUpTo};
ghost use Rattle.delivery_worker.specs.Delivering.{Delivers, attempts_in};
ghost use Rattle.delivery_worker.specs.Taking.{TakesByRule};
ghost use Rattle.delivery_worker.specs.Turns.{DeliversInLog};
ghost use Rattle.delivery_worker.specs.inner.Delivering.{Tries};

use crate::connection::Connection;
use crate::link::Link;
use crate::report::{DeliverEnd, DeliverReport};
use crate::taking::{TakeRule, take_by};
use book_core::{BookRows, TakeRefusal};
use book_lock::{Shared, Sharing, Station, TakeDurableRefusal};
use conn_worker::Clock;
use dest_queue::Outcome;
use log::Log;
use std::alloc::Global;
use std::sync::Wait;
use std::time;

/// Takes the first message of a queue by a rule, makes one attempt to deliver it, and settles the attempt, whatever
/// its outcome. The lock is held for the take and for the settlement, and not in between.
// Inlined, for speed: a call that is not takes some 50 instructions more.
#[inline(always)]
pub(crate) fn take_turn<H: Wait, A: Sharing, S: BookRows, L: Link, C: Clock>(
    rt: &H,
    shared: &Shared<A, S>,
    station: &mut Station<A>,
    connection: &mut Connection,
    link: &mut L,
    d: u32,
    rule: TakeRule,
    clock: &mut C,
) -> Result<Outcome, TakeDurableRefusal>
    requires leads { L.leads_to link.old ≡ d }
    ensures taken { OnOk result (station.new.counts.takes ≡ station.old.counts.takes + 1) }
    ensures settled { OnOk result (
        (station.old.counts.settlements ≤ station.new.counts.settlements)
        × (station.new.counts.settlements ≤ station.old.counts.settlements + 1)) }
    ensures attempt { IfOk result (λ outcome.
        (t : Tries connection.old.framer connection.new.framer (L.sent link.old) (L.sent link.new)
        (L.received link.old) (L.received link.new) outcome)
        × DeliversInLog A.opening d station.old.seat station.new.seat (t.attempt ∷ [])) }
    ensures by_rule { OnOk result (TakesByRule rule A.opening station.old.seat station.new.seat) }
    ensures receives { OnOk result (
        CallsUpTo (L.receives link.old) (L.receives link.new) RECEIVES_MAX) }
    ensures refused { OnErr result (
        (station.new.counts ≡ station.old.counts)
        × (connection.new.framer ≡ connection.old.framer)) }
    ensures untaken { OnErr result (
        DeliversInLog A.opening d station.old.seat station.new.seat []) }
    ensures unused { OnErr result (
        Keeps (L.sent link.old) (L.sent link.new)
        × Keeps (L.received link.old) (L.received link.new)) }
    ensures uncalled { OnErr result (CallsUpTo (L.receives link.old) (L.receives link.new) 0) }
    ensures leads { L.leads_to link.new ≡ L.leads_to link.old }
{
    let job = take_by(rt, shared, station, d, rule, clock.at_take())?;
    let outcome = connection.attempt(link, station, rule, &job);
    // Where there is no interval, none can be cut short.
    let now = if link.has_interval() {
        clock.at_settlement()
    } else {
        clock.at_take()
    };
    let state = shared.settle(rt, station, &job.ticket, outcome, now).ok();
    link.settled(&job, connection.reply(), outcome, state);
    Ok(outcome)
}

/// Delivers the messages of queue `d`, one after another, over one link: each that is due is taken, sent as a block, and
/// settled by what the destination answers (HL7 v2.5.1, 2.9.2 and 2.9.3). A turn is one call of `take`, answered or
/// refused; where nothing is due, the worker waits for a change at the queue, or a short while, and then flushes the log.
///
/// It ends where no arrival will follow and the queue is empty, or after `turns` turns.
pub fn deliver<H: Wait + time::Clock + Log, A: Sharing, S: BookRows, L: Link, C: Clock>(
    rt: &H,
    alloc: Global,
    shared: &Shared<A, S>,
    station: &mut Station<A>,
    link: &mut L,
    d: u32,
    clock: &mut C,
    turns: u64,
) -> DeliverReport
    // What is sent to a destination goes over a link that leads there.
    requires leads { L.leads_to link.old ≡ d }

    // The attempts are the takes of this station, and none is settled twice.
    ensures taken { station.new.counts.takes ≡ station.old.counts.takes + result.taken }
    ensures settled { (station.old.counts.settlements ≤ station.new.counts.settlements)
        × (station.new.counts.settlements ≤ station.old.counts.settlements + result.taken) }
    ensures turns { result.taken ≤ turns }

    // Each attempt is counted by its outcome: where it was sent, by the answers that were read next of its connection. Each
    // was made in a turn of this station: the job was taken, that job was sent, and it was settled by the outcome.
    ensures sum { result.taken ≡ result.delivered + result.again + result.rejected }
    ensures attempts { (t : Delivers (L.sent link.old) (L.sent link.new)
        (L.received link.old) (L.received link.new) result)
        × DeliversInLog A.opening d station.old.seat station.new.seat (attempts_in t.visits) }

    // An attempt makes 1,000,000 receives at most.
    ensures receives { CallsUpTo (L.receives link.old) (L.receives link.new) (RECEIVES_MAX * result.taken) }
    ensures leads { L.leads_to link.new ≡ L.leads_to link.old }
{
    let mut connection = Connection::new(alloc);
    let mut report = DeliverReport::new();
    'turns: for _ in 0..turns {
        // An arrival before this note is seen by the take after it.
        let is_finished = shared.is_finished();
        match take_turn(
            rt,
            shared,
            station,
            &mut connection,
            link,
            d,
            TakeRule::Any,
            clock,
        ) {
            Ok(outcome) => report.count(outcome),
            Err(TakeDurableRefusal::Refused(TakeRefusal::Idle)) if is_finished => {
                report.end = DeliverEnd::Drained;
                link.finish();
                return report;
            }
            Err(_) => {
                shared.bell(rt, d);
                rt.flush();
            }
        }
    }
    link.finish();
    report
}

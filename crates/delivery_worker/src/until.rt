//! Delivering the messages of a destination's queue until that is halted.

ghost use Rattle.std.specs.Prelude.{◌≡◌, ◌+◌, ◌*◌, ◌≤◌, [], ◌∷◌, Some, true, map, IfOk, IsErr, OnOk, OnErr};
ghost use Rattle.std.specs.Io.KnownBytes.{Keeps};
ghost use Rattle.fixed_numbers.specs.declared.serving.TheConstants.{RECEIVES_MAX};
ghost use Rattle.mllp_frame.specs.inner.Framed.{blank};
ghost use Rattle.delivery_worker.specs.Taking.{TakesByRule};
ghost use Rattle.delivery_worker.specs.Turns.{DeliversInLog};
ghost use Rattle.delivery_worker.specs.inner.Calls.{CallsUpTo};
ghost use Rattle.delivery_worker.specs.inner.Delivering.{DeliversAfresh, Tries};

use crate::connection::Connection;
use crate::link::Link;
use crate::report::{DeliverEnd, DeliverReport};
use crate::taking::TakeRule;
use crate::worker::take_turn;
use book_core::{BookRows, Front};
use book_lock::{Shared, Sharing, Station, TakeDurableRefusal};
use conn_worker::Clock;
use dest_queue::{Outcome, SlotState};
use log::Log;
use std::alloc::Global;
use std::sync::Wait;
use std::time::Duration;
use std::{thread, time};

/// The milliseconds that a worker waits where a message is not durable yet: about as long as a commit takes.
const COMMIT_WAIT: u64 = 2;

/// What halts the work.
pub trait Halt {
    /// Whether the work is to end now.
    fn is_halted(&self) -> bool;

    /// Whether no further message of queue `d` is to be taken now.
    fn is_held(&self, _d: u32) -> bool {
        false
    }
}

/// Why a turn made no attempt.
#[derive(Clone, Copy)]
enum Pause {
    /// No arrival will follow, and the queue is empty or held: delivering ends.
    Ended(DeliverEnd),
    /// The queue is held, nothing is due, or the destination can't be reached.
    NotYet,
    /// The first message is due, and is not durable yet.
    NotDurable,
}

/// Whether a message is at the front of a queue that may be taken at this moment.
fn is_due<C: Clock>(front: Option<Front>, clock: &mut C) -> bool {
    match front {
        Some(
            Front {
                state: SlotState::Waiting { due, .. },
                ..
            },
        ) => due <= clock.at_take().secs(),
        _ => false,
    }
}

/// Readies the connection, and makes one attempt to deliver the message at the front of a queue, unless that is held by then.
fn deliver_afresh<H: Wait, A: Sharing, S: BookRows, L: Link, C: Clock, E: Halt>(
    rt: &H,
    shared: &Shared<A, S>,
    station: &mut Station<A>,
    connection: &mut Connection,
    link: &mut L,
    d: u32,
    rule: TakeRule,
    clock: &mut C,
    halt: &E,
) -> Result<Outcome, Pause>
    requires leads { L.leads_to link.old ≡ d }
    ensures taken { OnOk result (station.new.counts.takes ≡ station.old.counts.takes + 1) }
    ensures settled { OnOk result (
        (station.old.counts.settlements ≤ station.new.counts.settlements)
        × (station.new.counts.settlements ≤ station.old.counts.settlements + 1)) }
    ensures attempt { IfOk result (λ outcome.
        (t : Tries (Some blank) connection.new.framer (L.sent link.old) (L.sent link.new)
        (L.received link.old) (L.received link.new) outcome)
        × DeliversInLog A.opening d station.old.seat station.new.seat (t.attempt ∷ [])) }
    ensures by_rule { OnOk result (TakesByRule rule A.opening station.old.seat station.new.seat) }
    ensures receives { OnOk result (
        CallsUpTo (L.receives link.old) (L.receives link.new) RECEIVES_MAX) }
    ensures refused { OnErr result (station.new.counts ≡ station.old.counts) }
    ensures untaken { OnErr result (
        DeliversInLog A.opening d station.old.seat station.new.seat []) }
    ensures unused { OnErr result (
        Keeps (L.sent link.old) (L.sent link.new)
        × Keeps (L.received link.old) (L.received link.new)) }
    ensures uncalled { OnErr result (CallsUpTo (L.receives link.old) (L.receives link.new) 0) }
    ensures leads { L.leads_to link.new ≡ L.leads_to link.old }
{
    match connection.prepare(link) {
        Ok(()) => {}
        Err(_) => return Err(Pause::NotYet),
    }
    // Connecting may have taken a while, so the hold is read again.
    if halt.is_held(d) {
        return Err(Pause::NotYet);
    }
    match take_turn(rt, shared, station, connection, link, d, rule, clock) {
        Ok(outcome) => Ok(outcome),
        Err(TakeDurableRefusal::NotDurable) => Err(Pause::NotDurable),
        Err(TakeDurableRefusal::Refused(_)) => Err(Pause::NotYet),
    }
}

/// Makes one attempt to deliver the message at the front of a queue, if it is due, the queue is not held, and the destination can be
/// reached.
fn turn_afresh<H: Wait, A: Sharing, S: BookRows, L: Link, C: Clock, E: Halt>(
    rt: &H,
    shared: &Shared<A, S>,
    station: &mut Station<A>,
    connection: &mut Connection,
    link: &mut L,
    d: u32,
    rule: TakeRule,
    clock: &mut C,
    halt: &E,
    is_held: bool,
) -> Result<Outcome, Pause>
    requires leads { L.leads_to link.old ≡ d }
    ensures held { is_held ≡ true → IsErr result }
    ensures taken { OnOk result (station.new.counts.takes ≡ station.old.counts.takes + 1) }
    ensures settled { OnOk result (
        (station.old.counts.settlements ≤ station.new.counts.settlements)
        × (station.new.counts.settlements ≤ station.old.counts.settlements + 1)) }
    ensures attempt { IfOk result (λ outcome.
        (t : Tries (Some blank) connection.new.framer (L.sent link.old) (L.sent link.new)
        (L.received link.old) (L.received link.new) outcome)
        × DeliversInLog A.opening d station.old.seat station.new.seat (t.attempt ∷ [])) }
    ensures by_rule { OnOk result (TakesByRule rule A.opening station.old.seat station.new.seat) }
    ensures receives { OnOk result (
        CallsUpTo (L.receives link.old) (L.receives link.new) RECEIVES_MAX) }
    ensures refused { OnErr result (station.new.counts ≡ station.old.counts) }
    ensures untaken { OnErr result (
        DeliversInLog A.opening d station.old.seat station.new.seat []) }
    ensures unused { OnErr result (
        Keeps (L.sent link.old) (L.sent link.new)
        × Keeps (L.received link.old) (L.received link.new)) }
    ensures uncalled { OnErr result (CallsUpTo (L.receives link.old) (L.receives link.new) 0) }
    ensures leads { L.leads_to link.new ≡ L.leads_to link.old }
{
    // An arrival before this note is seen by the look after it.
    let is_finished = shared.is_finished();
    let front = shared.front(rt, d);
    if front.is_none() && is_finished {
        return Err(Pause::Ended(DeliverEnd::Drained));
    }
    if is_held && is_finished {
        return Err(Pause::Ended(DeliverEnd::Held));
    }
    if is_held {
        return Err(Pause::NotYet);
    }
    if !is_due(front, clock) {
        return Err(Pause::NotYet);
    }
    deliver_afresh(rt, shared, station, connection, link, d, rule, clock, halt)
}

/// Delivers the messages of queue `d`, one after another, over one link, until that is halted: each that is due is
/// taken, sent as a block, and settled by what the destination answers (HL7 v2.5.1, 2.9.2 and 2.9.3). By the rule
/// `Durable` a message is taken only once its arrival is durable. A message is taken only once its connection is
/// ready, so a destination that can't be reached costs no attempt. No answer is read but one that was received after
/// the connection was readied for the attempt. Where nothing can be sent, or the queue is held, the worker waits for a change
/// at the queue, or a short while, and then flushes the log.
///
/// It ends where it is halted, or where no arrival will follow and the queue is empty or held.
pub fn deliver_until<
    H: Wait + time::Clock + Log,
    A: Sharing,
    S: BookRows,
    L: Link,
    C: Clock,
    E: Halt,
>(
    rt: &H,
    alloc: Global,
    shared: &Shared<A, S>,
    station: &mut Station<A>,
    link: &mut L,
    d: u32,
    rule: TakeRule,
    clock: &mut C,
    halt: &E,
) -> DeliverReport
    // What is sent to a destination goes over a link that leads there.
    requires leads { L.leads_to link.old ≡ d }

    // The attempts are the takes of this station, and none is settled twice.
    ensures taken { station.new.counts.takes ≡ station.old.counts.takes + result.taken }
    ensures settled { (station.old.counts.settlements ≤ station.new.counts.settlements)
        × (station.new.counts.settlements ≤ station.old.counts.settlements + result.taken) }

    // Each attempt is counted by its outcome: where it was sent, by the answers that were received in the attempt itself. Each
    // was made in a turn of this station: the job was taken, that job was sent, and it was settled by the outcome.
    ensures sum { result.taken ≡ result.delivered + result.again + result.rejected }
    ensures attempts { (t : DeliversAfresh (L.sent link.old) (L.sent link.new)
        (L.received link.old) (L.received link.new) result)
        × DeliversInLog A.opening d station.old.seat station.new.seat
        (map (λ e. e.attempt) t.exchanges) }

    // Each message that was taken may be sent by the rule.
    ensures by_rule { TakesByRule rule A.opening station.old.seat station.new.seat }

    // An attempt makes 1,000,000 receives at most.
    ensures receives { CallsUpTo (L.receives link.old) (L.receives link.new) (RECEIVES_MAX * result.taken) }
    ensures leads { L.leads_to link.new ≡ L.leads_to link.old }
{
    let mut connection = Connection::new(alloc);
    let mut report = DeliverReport::new();
    'turns: for _ in 0..u64::MAX {
        if halt.is_halted() {
            report.end = DeliverEnd::Halted;
            link.finish();
            return report;
        }
        let is_held = halt.is_held(d);
        match turn_afresh(
            rt,
            shared,
            station,
            &mut connection,
            link,
            d,
            rule,
            clock,
            halt,
            is_held,
        ) {
            Ok(outcome) => report.count(outcome),
            Err(Pause::Ended(end)) => {
                report.end = end;
                link.finish();
                return report;
            }
            Err(Pause::NotDurable) => {
                thread::sleep(rt, Duration::from_millis(COMMIT_WAIT));
                rt.flush();
            }
            Err(Pause::NotYet) => {
                shared.bell(rt, d);
                rt.flush();
            }
        }
    }
    link.finish();
    report
}

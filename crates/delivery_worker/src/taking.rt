//! By what rule the messages of a queue are taken.

ghost use Rattle.std.specs.Prelude.{◌≡◌, Ok, IfErr, IfOk, OnErr, OnOk};
ghost use Rattle.book_lock.specs.inner.Shares.{with_take};
ghost use Rattle.delivery_worker.specs.Taking.{MayBeSent};
ghost use Rattle.delivery_worker.specs.inner.Taking.{IsNotTakenBy, TakesAfterLook};

use book_core::{BookRows, Job};
use book_lock::{Shared, Sharing, Station, TakeDurableRefusal};
use hl7_head::Moment;
use std::sync::Wait;

/// Which messages of a queue are taken, and so are sent.
#[derive(Clone, Copy, Debug, PartialEq, Eq)]
pub enum TakeRule {
    /// The first message, where it is due.
    Any,
    /// The first message, where it is due and its arrival is durable, so that no receiver knows a message that the engine
    /// would not know after a crash.
    Durable,
}

/// Takes the first message of queue `d` by a rule.
///
/// # Errors
///
/// `NotDurable` where the rule is `Durable` and the message's arrival is not durable yet, else the refusal of the book. The
/// counts of the station are unchanged.
// Inlined, since `take_turn` is.
#[inline(always)]
pub(crate) fn take_by<H: Wait, A: Sharing, S: BookRows>(
    rt: &H,
    shared: &Shared<A, S>,
    station: &mut Station<A>,
    d: u32,
    rule: TakeRule,
    now: Moment,
) -> Result<Job, TakeDurableRefusal>
    ensures taken { IfOk result (λ job.
        TakesAfterLook A.opening d now station.old.seat station.new.seat (Ok job)) }
    ensures durable { IfOk result (λ job.
        MayBeSent rule A.opening station.new.seat job.ticket.number) }
    ensures not_taken { IfErr result (λ refusal.
        IsNotTakenBy rule A.opening d now station.old.seat station.new.seat refusal) }
    ensures counted { OnOk result (station.new.counts ≡ with_take station.old.counts) }
    ensures refused { OnErr result (station.new.counts ≡ station.old.counts) }
{
    match rule {
        TakeRule::Any => match shared.take(rt, station, d, now) {
            Ok(job) => Ok(job),
            Err(refusal) => Err(TakeDurableRefusal::Refused(refusal)),
        },
        TakeRule::Durable => shared.take_durable(rt, station, d, now),
    }
}

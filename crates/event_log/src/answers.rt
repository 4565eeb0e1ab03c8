//! Single answers, by a plan, a verdict or a slot alone.

ghost use Rattle.std.specs.Prelude.{◌≡◌, ◌≢◌, ◌<◌, ◌≤◌, ◌*◌, IfSome, Some, true, All, AllPairs};
ghost use Rattle.judge_core.specs.Delivering.{destinations_of};
ghost use Rattle.judge_core.specs.inner.Judging.{is_booked};
ghost use Rattle.event_log.specs.Answers.{attempts_max, front_answer, interval, told_by};
ghost use Rattle.event_log.specs.inner.Legal.{IsWithin};
ghost use Rattle.event_log.specs.Room.{committed_by_new};

use crate::entry::{Ticket, Told};
use crate::refusal::TakeRefusal;
use dest_queue::{ATTEMPTS_MAX, SlotState};
use judge_core::{Delivery, Verdict};
use plan_text::Plan;

/// How often a message is sent to d at most; 0 where the plan has no such destination.
pub fn attempts_max(plan: &Plan, d: u32) -> u32
    ensures value { result ≡ attempts_max plan.now d }
    ensures bound { result ≤ ATTEMPTS_MAX }
{
    plan.rules();
    plan.destination(d).map_or(0, |x| x.attempts())
}

/// How many seconds a retry at d waits; 0 where the plan has no such destination.
pub fn interval(plan: &Plan, d: u32) -> u32
    ensures value { result ≡ interval plan.now d }
    ensures bound { result ≤ 86400 }
{
    plan.rules();
    plan.destination(d).map_or(0, |x| x.interval())
}

/// The answer to a message whose key is not known; an accepted one gets this number.
pub fn told_first(verdict: &Verdict, number: u32) -> Told
    requires { is_booked verdict.now ≡ true }
    ensures { told_by number verdict.now ≡ Some result }
{
    match verdict {
        Verdict::Refuse(cause) => Told::Refused(*cause),
        Verdict::Filtered => Told::Filtered,
        Verdict::Accept(_) => Told::Accepted(number),
        Verdict::Unreadable | Verdict::Stray => unreachable!(),
    }
}

/// The answer to a take at d, whose front has this number and this slot there.
///
/// # Errors
///
/// `InFlightNow` where that slot is in flight, `NotDue` where it waits for a later moment, `Idle` where it is
/// settled or there is none.
pub fn front_answer(
    d: u32,
    now: u64,
    number: u32,
    slot: Option<SlotState>,
) -> Result<Ticket, TakeRefusal>
    requires { IfSome slot (IsWithin ATTEMPTS_MAX) }
    ensures { result ≡ front_answer d now number slot }
{
    match slot {
        Some(SlotState::Waiting { due, .. }) if now < due => Err(TakeRefusal::NotDue(due)),
        Some(SlotState::Waiting { attempts, .. }) => Ok(Ticket {
            number,
            destination: d,
            attempt: attempts + 1,
        }),
        Some(SlotState::InFlight { .. }) => Err(TakeRefusal::InFlightNow(number)),
        Some(SlotState::Delivered | SlotState::Failed(_)) | None => Err(TakeRefusal::Idle),
    }
}

/// The entries that the new slots of a message owe.
pub fn committed_by_new(plan: &Plan, deliveries: &[Delivery]) -> u32
    requires within { All (λ x. x.destination < 32) deliveries.now }
    requires once { AllPairs (λ x y. x.destination ≢ y.destination) deliveries.now }
    ensures value { result ≡ committed_by_new plan.now (destinations_of deliveries.now) }
    ensures bound { result ≤ 6432 }
{
    let mut owed = 0;
    for delivery in deliveries {
        owed += 2 * attempts_max(plan, delivery.destination) + 1;
    }
    owed
}

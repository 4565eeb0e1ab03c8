//! Single answers, by what the history says.

ghost use Rattle.std.specs.Prelude.{◌≡◌, ◌<◌, ◌≤◌, ◌+◌, ◌^◌};
ghost use Rattle.judge_core.specs.Judging.{verdict as decided};
ghost use Rattle.dest_queue.specs.States.{slot_answer, state_after};
ghost use Rattle.event_log.specs.Room.{committed_by_new, slots_added};

use dest_queue::{FailCause, Outcome, SettleRefusal, SlotState};
use event_log::{Told, committed_by_new};
use judge_core::Verdict;
use plan_text::Plan;

/// What an attempt's outcome makes of its slot.
fn state_after(outcome: Outcome, attempt: u32, now: u64, max: u32, interval: u32) -> SlotState
    requires { now + interval < 2 ^ 64 }
    ensures { result ≡ state_after outcome attempt now max interval }
{
    match outcome {
        Outcome::Delivered => SlotState::Delivered,
        Outcome::Rejected => SlotState::Failed(FailCause::Rejected),
        Outcome::Again if attempt == max => SlotState::Failed(FailCause::Exhausted),
        Outcome::Again => SlotState::Waiting {
            attempts: attempt,
            due: now + u64::from(interval),
        },
    }
}

/// The answer to a settlement of an attempt, by its slot.
pub(crate) fn settled(
    slot: Option<SlotState>,
    outcome: Outcome,
    attempt: u32,
    now: u64,
    max: u32,
    interval: u32,
) -> Result<SlotState, SettleRefusal>
    requires { now + interval < 2 ^ 64 }
    ensures { result ≡ slot_answer slot outcome attempt now max interval }
{
    match slot {
        None => Err(SettleRefusal::NoSlot),
        Some(SlotState::InFlight { attempt: in_flight }) if in_flight == attempt => {
            Ok(state_after(outcome, attempt, now, max, interval))
        }
        Some(state) => Err(SettleRefusal::NotInFlight(state)),
    }
}

/// What the slots owe that an arrival adds, with this verdict and this answer.
pub(crate) fn arrival_owes(
    plan: &Plan,
    channel: u32,
    raw: &[u8],
    told: Told,
    verdict: &Verdict,
) -> u32
    requires { verdict.now ≡ decided plan.now channel raw.now }
    ensures value { result ≡ committed_by_new plan.now (slots_added plan.now channel raw.now told) }
    ensures bound { result ≤ 6432 }
{
    match (told, verdict) {
        (Told::Accepted(_), Verdict::Accept(deliveries)) => {
            committed_by_new(plan, deliveries.as_slice())
        }
        _ => 0,
    }
}

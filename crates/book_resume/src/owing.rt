//! What the slots of an opening's messages owe.

ghost use Rattle.std.specs.Prelude.{◌≡◌, ◌≤◌, length};
ghost use Rattle.book_resume.specs.inner.Owing.{message_owed, owed_at, remembered_owed};

use dest_queue::Slots;
use event_log::{PLACES_MAX, Remembered, attempts_max, slot_owed};
use plan_text::Plan;
use row_store::QUEUES;

/// The entries that may still follow from the slot of a message at d, if it has one there.
fn owed_at(plan: &Plan, slots: &Slots, d: u32) -> u64
    ensures value { result ≡ owed_at plan.now slots.now d }
    ensures few { result ≤ 202 }
{
    match slots.state_at(d) {
        Some(state) => u64::from(slot_owed(attempts_max(plan, d), state)),
        None => 0,
    }
}

/// The entries that may still follow from the slots of a message.
fn message_owed(plan: &Plan, slots: &Slots) -> u64
    ensures value { result ≡ message_owed plan.now slots.now }
    ensures few { result ≤ 6464 }
{
    let mut owed = 0;
    for d in 0..QUEUES {
        owed += owed_at(plan, slots, d);
    }
    owed
}

/// The entries that may still follow from the slots of all arrivals that are remembered.
pub(crate) fn owed_of(plan: &Plan, arrivals: &[Remembered]) -> u64
    requires { length arrivals.now ≤ PLACES_MAX }
    ensures { result ≡ remembered_owed plan.now arrivals.now }
{
    let mut owed = 0;
    for arrival in arrivals {
        owed += message_owed(plan, arrival.slots());
    }
    owed
}

//! What is sent of a message, and where it waits.

ghost use Rattle.std.specs.Prelude.{◌≡◌, ◌<◌, ◌==◌, ◌&&◌};
ghost use Rattle.std.specs.Int.{bit_at};
ghost use Rattle.dest_queue.specs.Slots.{state_at};
ghost use Rattle.dest_queue.specs.States.{is_waiting};
ghost use Rattle.book_core.specs.Sending.{awaits_ack};
ghost use Rattle.book_core.specs.inner.Sending.{owed_waiting};

use dest_queue::{SlotState, Slots};
use event_log::{attempts_max, slot_owed};
use plan_text::{Await, Plan};
use row_store::QUEUES;

/// Whether destination d answers with an acknowledgment.
pub(crate) fn awaits_ack(plan: &Plan, d: u32) -> bool
    ensures { result ≡ awaits_ack plan.now d }
{
    match plan.destination(d) {
        Some(destination) => destination.wait() == Await::Ack,
        None => false,
    }
}

/// What the slots of a message owe where they wait at a destination of the mask `among`: nothing where none does.
pub(crate) fn owed_waiting(plan: &Plan, slots: &Slots, among: u32) -> u32
    ensures { result ≡ owed_waiting plan.now among (λ d. state_at d slots.now) }
{
    let mut owed = 0;
    for d in 0..QUEUES {
        if let Some(state) = slots.state_at(d) {
            if waits_among(state, d, among) {
                owed += slot_owed(attempts_max(plan, d), state);
            }
        }
    }
    owed
}

/// Whether a state waits, and the mask `among` names its destination d.
fn waits_among(state: SlotState, d: u32, among: u32) -> bool
    requires { d < QUEUES }
    ensures { result ≡ ((bit_at among d == 1) && is_waiting state) }
{
    among >> d & 1 == 1 && state.is_waiting()
}

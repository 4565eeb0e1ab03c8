//! What was in flight when a process ended waits again.

ghost use Rattle.std.specs.Prelude.{◌≡◌, IfOk, map};
ghost use Rattle.opening_maps.specs.inner.GivenBack.{arrival_given_back, given_back, slot_given_back, state_given_back};

use crate::sharing::deliveries_of;
use dest_queue::{Slot, SlotState, Slots};
use event_log::{Remembered, Snapshot};
use std::alloc::{AllocError, Global};
use std::sync::Arc;

/// The state of a slot, where one that is in flight waits again, its attempt not counted.
fn state_given_back(state: SlotState) -> SlotState
    ensures { result ≡ state_given_back state }
{
    match state {
        SlotState::InFlight { attempt } => SlotState::Waiting {
            attempts: attempt.saturating_sub(1),
            due: 0,
        },
        SlotState::Waiting { .. } | SlotState::Delivered | SlotState::Failed(_) => state,
    }
}

/// A slot, in the same way.
fn slot_given_back(slot: Slot) -> Slot
    ensures { result ≡ slot_given_back slot }
{
    Slot {
        destination: slot.destination,
        state: state_given_back(slot.state),
    }
}

/// The slots of a message, each in the same way.
fn slots_given_back(alloc: Global, slots: &Slots) -> Result<Slots, AllocError>
    ensures { IfOk result (λ back. back ≡ map slot_given_back slots.now) }
{
    let mut back = Slots::new(alloc);
    for slot in &slots.to_vec()? {
        back.push(slot_given_back(*slot))?;
    }
    Ok(back)
}

/// A remembered arrival, with its slots given back.
fn arrival_given_back(alloc: Global, arrival: &Remembered) -> Result<Remembered, AllocError>
    ensures { IfOk result (λ back. back ≡ arrival_given_back arrival.now) }
{
    Ok(Remembered::new(
        arrival.place(),
        arrival.channel(),
        arrival.raw().share()?,
        arrival.told(),
        deliveries_of(arrival)?,
        slots_given_back(alloc, arrival.slots())?,
    ))
}

/// Remembered arrivals, each with its slots given back.
fn arrivals_given_back(
    alloc: Global,
    arrivals: &[Remembered],
) -> Result<Vec<Remembered>, AllocError>
    ensures { IfOk result (λ back. back.items ≡ map arrival_given_back arrivals.now) }
{
    let mut back = Vec::with_capacity(alloc, arrivals.len())?;
    for arrival in arrivals {
        back.push(arrival_given_back(alloc, arrival)?)?;
    }
    Ok(back)
}

/// The opening with its slots in flight given back: each waits again, due at once, and the attempt that was under way is not
/// counted. So no message fails because a process ended while it was sent, not even where one attempt is allowed; the
/// destination may receive it twice. The messages, their texts and all else are the same.
///
/// # Errors
///
/// Where memory is refused.
#[tactic(auto, using(crate::proofs::GivenBack::places_rise))]
pub fn given_back(alloc: Global, opening: &Snapshot) -> Result<Snapshot, AllocError>
    ensures { IfOk result (λ back. back ≡ given_back opening.now) }
{
    let remembered = arrivals_given_back(alloc, opening.remembered())?;
    Ok(Snapshot::of(
        Arc::try_clone(opening.plan())?,
        opening.events_max(),
        opening.places(),
        opening.messages(),
        opening.deployments(),
        opening.prunings(),
        *opening.forgotten(),
        remembered,
    ))
}

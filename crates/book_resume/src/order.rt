//! Whether an opening is in order, as far as can be told without reading the bytes of its messages.

ghost use Rattle.std.specs.Prelude.{◌≡◌, ◌≤◌, ◌+◌, ◌↔◌, ◌&&◌, All, IfNone, IfOk, IfSome, IsTrue, length, map};
ghost use Rattle.std.specs.List.{filter_map, list_all};
ghost use Rattle.judge_core.specs.Delivering.{destinations_of};
ghost use Rattle.judge_core.specs.inner.Delivering.{AreDeliveries};
ghost use Rattle.event_log.specs.inner.History.{number_of};
ghost use Rattle.book_resume.specs.inner.Order.{AreLast, IsAnswered, IsBounded, IsInOrder, IsOrdered, channel_fits, destination_fits, follow_from, slot_rests};

use crate::owing::owed_of;
use dest_queue::{Slot, SlotState};
use event_log::{EVENTS_MAX, PRUNINGS_MAX, Remembered, Snapshot, Told, attempts_max};
use fixed_numbers::CHANNELS;
use judge_core::{Delivery, fits_block};
use plan_text::Plan;
use stat_count::{ChannelCounts, Counts, DestinationCounts};
use std::alloc::AllocError;

/// Where an arrival goes.
fn deliveries_of(arrival: &Remembered) -> &[Delivery]
    ensures value { result.now ≡ arrival.now.deliveries }
    ensures goes { AreDeliveries result.now }
{
    match arrival.deliveries() {
        Some(deliveries) => deliveries.as_slice(),
        None => &[],
    }
}

/// Whether an arrival with this answer, which goes there, is one that is remembered: an accepted one, or a filtered one that
/// goes nowhere.
fn is_answered(told: Told, deliveries: &[Delivery]) -> bool
    ensures { IsTrue result ↔ IsAnswered told deliveries.now }
{
    match told {
        Told::Accepted(_) => true,
        Told::Filtered => deliveries.is_empty(),
        Told::Refused(_) | Told::Repeat(_) => false,
    }
}

/// Whether there is one slot for each delivery, in their order.
fn are_slots_of(slots: &[Slot], deliveries: &[Delivery]) -> bool
    ensures { IsTrue result ↔ (map (λ s. s.destination) slots.now ≡ destinations_of deliveries.now) }
{
    match slots {
        [] => deliveries.is_empty(),
        [slot, slots @ ..] => match deliveries {
            [] => false,
            [delivery, deliveries @ ..] => {
                slot.destination == delivery.destination && are_slots_of(slots, deliveries)
            }
        },
    }
}

/// Whether no attempt is under way at a slot, and one that waits has an attempt left.
fn slot_rests(plan: &Plan, slot: &Slot) -> bool
    ensures { result ≡ slot_rests plan.now slot.now }
{
    match slot.state {
        SlotState::Waiting { attempts, .. } => attempts < attempts_max(plan, slot.destination),
        SlotState::InFlight { .. } => false,
        SlotState::Delivered | SlotState::Failed(_) => true,
    }
}

/// Whether no attempt is under way at any of the slots, and each that waits has an attempt left.
fn all_rest(plan: &Plan, slots: &[Slot]) -> bool
    ensures { result ≡ list_all (slot_rests plan.now) slots.now }
{
    slots.iter().all(|slot| slot_rests(plan, slot))
}

/// Whether what is remembered of an arrival is in order.
///
/// # Errors
///
/// Where memory is refused.
fn is_in_order(plan: &Plan, places: usize, arrival: &Remembered) -> Result<bool, AllocError>
    ensures { IfOk result (λ b. IsTrue b ↔ IsInOrder plan.now places arrival.now) }
{
    let slots = arrival.slots().to_vec()?;
    let deliveries = deliveries_of(arrival);
    if arrival.channel() >= CHANNELS || arrival.place() >= places {
        return Ok(false);
    }
    if !fits_block(arrival.raw().as_slice()) {
        return Ok(false);
    }
    if !is_answered(arrival.told(), deliveries) {
        return Ok(false);
    }
    if !are_slots_of(&slots, deliveries) {
        return Ok(false);
    }
    Ok(all_rest(plan, &slots))
}

/// Whether what is remembered of each of these arrivals is in order.
///
/// # Errors
///
/// Where memory is refused.
fn are_in_order(plan: &Plan, places: usize, arrivals: &[Remembered]) -> Result<bool, AllocError>
    ensures { IfOk result (λ b. IsTrue b ↔ All (IsInOrder plan.now places) arrivals.now) }
{
    for arrival in arrivals {
        if !is_in_order(plan, places, arrival)? {
            return Ok(false);
        }
    }
    Ok(true)
}

/// How many of the arrivals were accepted.
fn accepted_among(arrivals: &[Remembered]) -> usize
    ensures { result ≡ length (filter_map number_of arrivals.now) }
{
    let mut count = 0;
    for arrival in arrivals {
        if let Told::Accepted(_) = arrival.told() {
            count += 1;
        }
    }
    count
}

/// Whether the accepted arrivals have the numbers from `first` on, in their order.
fn are_numbered_from(arrivals: &[Remembered], first: usize) -> bool
    ensures { result ≡ follow_from first (filter_map number_of arrivals.now) }
{
    let mut next = first;
    for arrival in arrivals {
        if let Told::Accepted(number) = arrival.told() {
            if number as usize != next {
                return false;
            }
            next += 1;
        }
    }
    true
}

/// The number of the first message that is remembered, or of the next one where none is, if the accepted arrivals have the
/// last of the numbers that were given.
fn first_number(messages: u32, arrivals: &[Remembered]) -> Option<usize>
    ensures first { IfSome result (λ first. first + length (filter_map number_of arrivals.now) ≡ messages) }
    ensures last { IfSome result (λ _. AreLast messages (filter_map number_of arrivals.now)) }
    ensures none { IfNone result (¬ AreLast messages (filter_map number_of arrivals.now)) }
{
    let first = (messages as usize).checked_sub(accepted_among(arrivals))?;
    are_numbered_from(arrivals, first).then_some(first)
}

/// Whether the messages of a channel are those filtered, accepted and refused, and at most so many with the repeats.
fn channel_fits(counts: &ChannelCounts, places: usize) -> bool
    ensures { result ≡ channel_fits places counts.now }
{
    let received = u128::from(counts.received);
    let decided = u128::from(counts.filtered)
        + u128::from(counts.accepted)
        + u128::from(counts.refused);
    received == decided && received + u128::from(counts.repeats) <= places as u128
}

/// Whether a destination has no message that is still to be delivered, and at most so many others; each delivered one was taken,
/// and at most so many attempts were begun.
fn destination_fits(counts: &DestinationCounts, places: usize, gone: usize) -> bool
    ensures { result ≡ destination_fits places gone counts.now }
{
    counts.waiting == 0
        && counts.inflight == 0
        && u128::from(counts.delivered) + u128::from(counts.failed) <= gone as u128
        && counts.delivered <= counts.attempts
        && counts.attempts <= places as u64
}

/// Whether the counters of each channel fit.
fn channels_fit(counts: &Counts, places: usize) -> bool
    ensures { result ≡ list_all (channel_fits places) counts.now.channels }
{
    counts
        .channels()
        .iter()
        .all(|counts| channel_fits(counts, places))
}

/// Whether the counters of each destination fit.
fn destinations_fit(counts: &Counts, places: usize, gone: usize) -> bool
    ensures { result ≡ list_all (destination_fits places gone) counts.now.destinations }
{
    counts
        .destinations()
        .iter()
        .all(|counts| destination_fits(counts, places, gone))
}

/// Whether the numbers of an opening are within their bounds.
fn has_bounds(opening: &Snapshot) -> bool
    ensures { IsTrue result ↔ IsBounded opening.now }
{
    let (places, prunings) = (opening.places(), opening.prunings());
    opening.events_max() <= EVENTS_MAX
        && prunings <= PRUNINGS_MAX
        && opening.messages() as usize <= places
        && places as u64 <= u64::from(prunings) * u64::from(EVENTS_MAX)
}

/// Whether an opening is in order.
///
/// # Errors
///
/// Where memory is refused.
pub(crate) fn is_ordered(opening: &Snapshot) -> Result<bool, AllocError>
    ensures { IfOk result (λ b. IsTrue b ↔ IsOrdered opening.now) }
{
    let (plan, places) = (opening.plan(), opening.places());
    let arrivals = opening.remembered();
    if !has_bounds(opening) {
        return Ok(false);
    }
    if !are_in_order(plan, places, arrivals)? {
        return Ok(false);
    }
    let Some(gone) = first_number(opening.messages(), arrivals) else {
        return Ok(false);
    };
    let counts = opening.forgotten();
    if !channels_fit(counts, places) {
        return Ok(false);
    }
    if !destinations_fit(counts, places, gone) {
        return Ok(false);
    }
    Ok(owed_of(plan, arrivals) <= u64::from(opening.events_max()))
}

//! The statistics of a history that goes on from an opening.

ghost use Rattle.std.specs.Prelude.{◌≡◌, ◌*◌, ◌<◌, ◌≤◌, ℕ, true, IfOk, IsErrOf, OnOk, length};
ghost use Rattle.std.specs.List.{list_all};
ghost use Rattle.stat_count.specs.Statistics.{destination_at};
ghost use Rattle.stat_count.specs.inner.Statistics.{IsStatistics, slots_of};
ghost use Rattle.book_resume.specs.declared.fault.ResumeFault.TheVariants.{NotGood};
ghost use Rattle.book_resume.specs.inner.Counters.{counted_with, was_taken, with_remembered, with_slot};

use crate::fault::ResumeFault;
use dest_queue::SlotState;
use event_log::{PLACES_MAX, Remembered, Snapshot};
use stat_count::{Counts, DESTINATIONS, DestinationCounts};
use std::alloc::{AllocError, Global};

/// Counts a slot in this state.
fn count_slot(counts: &mut DestinationCounts, state: SlotState)
    requires waiting { counts.old.waiting < u64.MAX }
    requires inflight { counts.old.inflight < u64.MAX }
    requires delivered { counts.old.delivered < u64.MAX }
    requires failed { counts.old.failed < u64.MAX }
    ensures { counts.new ≡ with_slot state counts.old }
{
    match state {
        SlotState::Waiting { .. } => counts.waiting += 1,
        SlotState::InFlight { .. } => counts.inflight += 1,
        SlotState::Delivered => counts.delivered += 1,
        SlotState::Failed(_) => counts.failed += 1,
    }
}

/// The counters of destination d with the slots that these arrivals have there, where it had these before.
fn count_at(arrivals: &[Remembered], d: u32, before: DestinationCounts) -> DestinationCounts
    requires few { length arrivals.now ≤ PLACES_MAX }
    requires few_before { slots_of before ≤ 2 * PLACES_MAX }
    ensures { result ≡ with_remembered arrivals.now d before }
{
    let mut counts = before;
    for arrival in arrivals {
        if let Some(state) = arrival.slots().state_at(d) {
            count_slot(&mut counts, state);
        }
    }
    counts
}

/// The counters of all destinations, in the order of their indices.
fn count_all(alloc: Global, opening: &Snapshot) -> Result<Vec<DestinationCounts>, AllocError>
    requires few { length opening.now.remembered ≤ PLACES_MAX }
    requires few_before { (d : ℕ) → d < DESTINATIONS → slots_of (destination_at d opening.now.forgotten) ≤ 2 * PLACES_MAX }
    ensures { IfOk result (λ counts. counts.items ≡ (counted_with opening.now).destinations) }
{
    let mut counts = Vec::with_capacity(alloc, DESTINATIONS as usize)?;
    for d in 0..DESTINATIONS {
        let before = opening.forgotten().destination(d);
        counts.push(count_at(opening.remembered(), d, before))?;
    }
    Ok(counts)
}

/// Whether each message in flight to a destination or delivered was taken.
fn was_taken(counts: &DestinationCounts) -> bool
    ensures { result ≡ was_taken counts.now }
{
    u128::from(counts.inflight) + u128::from(counts.delivered) <= u128::from(counts.attempts)
}

/// Whether the same holds of each destination.
fn were_taken(destinations: &[DestinationCounts]) -> bool
    ensures { result ≡ list_all was_taken destinations.now }
{
    destinations.iter().all(|counts| was_taken(counts))
}

/// The statistics of a history that goes on from an opening, with none booked since.
///
/// # Errors
///
/// `NotGood` where they contradict one another.
pub(crate) fn recount(alloc: Global, opening: &Snapshot) -> Result<Counts, ResumeFault>
    requires few { length opening.now.remembered ≤ PLACES_MAX }
    requires few_before { (d : ℕ) → d < DESTINATIONS → slots_of (destination_at d opening.now.forgotten) ≤ 2 * PLACES_MAX }
    ensures channels { length opening.now.forgotten.channels ≡ 64 }
    ensures destinations { length opening.now.forgotten.destinations ≡ 32 }
    ensures counts { IfOk result (λ counts. counts ≡ counted_with opening.now) }
    ensures taken { OnOk result (list_all was_taken (counted_with opening.now).destinations ≡ true) }
    ensures refused { IsErrOf result NotGood → ¬ IsStatistics (counted_with opening.now) }
{
    let channels = opening.forgotten().channels();
    let _forgotten = opening.forgotten().destinations();
    let destinations = count_all(alloc, opening)?;
    if !were_taken(&destinations) {
        return Err(ResumeFault::NotGood);
    }
    Counts::of(channels, &destinations).ok_or(ResumeFault::NotGood)
}

//! Counting events.

ghost use Rattle.std.specs.Prelude.{◌≡◌, ◌≢◌, ◌*◌, ◌<◌, ◌≤◌, ◌==◌, ℕ, true, All, AllPairs, length};
ghost use Rattle.std.specs.Int.{bit_at};
ghost use Rattle.stat_count.specs.Statistics.{channel_at, destination_at};
ghost use Rattle.stat_count.specs.inner.Statistics.{on_destination, slots_of};
ghost use Rattle.judge_core.specs.Delivering.{destinations_of};
ghost use Rattle.event_log.specs.Room.{is_in_flight};
ghost use Rattle.book_core.specs.inner.Counting.{CountsArrival, CountsCancel, settled_one};

use dest_queue::SlotState;
use event_log::{PLACES_MAX, Told};
use judge_core::Delivery;
use stat_count::{CHANNELS, Counts, DESTINATIONS};

/// Counts an arrival on a channel, and the slots that wait from then on.
pub(crate) fn count_arrival(counts: &mut Counts, channel: u32, told: Told, deliveries: &[Delivery])
    requires channel { channel < CHANNELS }
    requires within { All (λ x. x.destination < DESTINATIONS) deliveries.now }
    requires once { AllPairs (λ x y. x.destination ≢ y.destination) deliveries.now }
    requires few { (channel_at channel counts.old).received ≤ PLACES_MAX }
    requires few_repeats { (channel_at channel counts.old).repeats ≤ PLACES_MAX }
    requires few_slots { (d : ℕ) → d < DESTINATIONS → slots_of (destination_at d counts.old) ≤ 2 * PLACES_MAX }
    requires sizes { length counts.old.channels ≡ 64 }
    requires slots { length counts.old.destinations ≡ 32 }
    ensures { CountsArrival channel told (destinations_of deliveries.now) counts.old counts.new }
{
    match told {
        Told::Accepted(_) => counts.count_accepted(channel),
        Told::Filtered => counts.count_filtered(channel),
        Told::Refused(_) => counts.count_refused(channel),
        Told::Repeat(_) => counts.count_repeat(channel),
    }
    for delivery in deliveries {
        counts.count_waiting(delivery.destination);
    }
}

/// Counts a settlement at a destination, which left the slot in a state.
pub(crate) fn count_settled(counts: &mut Counts, d: u32, state: SlotState)
    requires place { d < DESTINATIONS }
    requires inflight { 0 < (destination_at d counts.old).inflight }
    ensures { counts.new ≡ on_destination d (settled_one state) counts.old }
{
    match state {
        SlotState::Waiting { .. } => counts.count_again(d),
        SlotState::InFlight { .. } => {}
        SlotState::Delivered => counts.count_delivered(d),
        SlotState::Failed(_) => counts.count_failed(d),
    }
}

/// Counts a cancellation at each destination of the mask.
pub(crate) fn count_cancelled(counts: &mut Counts, mask: u32)
    requires waits { (d : ℕ) → d < DESTINATIONS → (bit_at mask d == 1) ≡ true → 0 < (destination_at d counts.old).waiting }
    requires slots { length counts.old.destinations ≡ 32 }
    ensures { CountsCancel mask counts.old counts.new }
{
    for d in 0..DESTINATIONS {
        if mask >> d & 1 == 1 {
            counts.count_cancelled(d);
        }
    }
}

//! Whether a plan may replace another, by what the two say.

ghost use Rattle.std.specs.Prelude.{◌≡◌, slice_get};
ghost use Rattle.event_log.specs.Deployment.{same_channels, stays};
ghost use Rattle.event_log.specs.inner.Deployment.{same_at};

use plan_text::Plan;

/// Whether two plans have channels of the same name at this index.
fn same_name(old: &Plan, new: &Plan, place: u32) -> bool
    ensures { result ≡ same_at (slice_get old.now.channels place) (slice_get new.now.channels place) }
{
    match (old.channel(place), new.channel(place)) {
        (Some(old), Some(new)) => old.name() == new.name(),
        _ => false,
    }
}

/// Whether two plans have channels of the same names, in the same order.
pub fn same_channels(old: &Plan, new: &Plan) -> bool
    ensures { result ≡ same_channels old.now new.now }
{
    if old.channels() != new.channels() {
        return false;
    }
    for place in 0..old.channels() {
        if !same_name(old, new, place) {
            return false;
        }
    }
    true
}

/// Whether destination d stays with a new plan: it keeps its name and its attempts.
pub fn keeps_destination(old: &Plan, new: &Plan, d: u32) -> bool
    ensures { result ≡ stays (slice_get old.now.destinations d) (slice_get new.now.destinations d) }
{
    match (old.destination(d), new.destination(d)) {
        (Some(old), Some(new)) => old.name() == new.name() && old.attempts() == new.attempts(),
        _ => false,
    }
}

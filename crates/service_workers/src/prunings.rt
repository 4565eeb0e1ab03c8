//! Which prunings the command `prune` makes. Their number is limited, and arrivals need them.

ghost use Rattle.std.specs.Prelude.{◌≡◌, ◌-◌, ◌/◌, min, unwrap_or};
ghost use Rattle.service_workers.specs.inner.Prunings.{forgettable, prune_refusal};

use book_lock::{Gauge, Status};
use fixed_numbers::PRUNINGS_MAX;

/// How many prunings are left to arrivals alone: a tenth.
const RESERVED: u32 = 100;

/// Why the command `prune` makes no pruning.
#[derive(Clone, Copy, Debug, PartialEq, Eq)]
pub enum PruneRefusal {
    /// Fewer than 100 prunings are left, which arrivals may need.
    FewLeft,
    /// It would free fewer entries than a hundredth of the bound, and forget fewer messages.
    FreesLittle,
}

/// How many messages a pruning that keeps the last `keep` would forget.
fn forgettable(status: &Status, keep: u32) -> u32
    ensures { result ≡ forgettable keep status.now }
{
    let Gauge {
        messages,
        first,
        ..
    } = status.gauge;
    let settled = status.first_live.unwrap_or(messages);
    settled
        .min(messages.saturating_sub(keep))
        .saturating_sub(first)
}

/// Why the command `prune` makes no pruning, where it keeps the last `keep` messages; none where it makes one.
pub fn prune_refusal(status: &Status, keep: u32) -> Option<PruneRefusal>
    ensures { result ≡ prune_refusal keep status.now }
{
    let Gauge {
        held,
        events_max,
        prunings,
        ..
    } = status.gauge;
    let worth = events_max / 100;
    if PRUNINGS_MAX.saturating_sub(prunings) < RESERVED {
        Some(PruneRefusal::FewLeft)
    } else if (held as u64) < u64::from(worth) && forgettable(status, keep) < worth {
        Some(PruneRefusal::FreesLittle)
    } else {
        None
    }
}

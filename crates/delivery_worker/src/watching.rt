//! How long a new connection is watched before a message is sent over it.

ghost use Rattle.std.specs.Prelude.{◌≡◌};
ghost use Rattle.delivery_worker.specs.inner.Lately.{next_watch};

/// The most seconds at first.
const FIRST_MAX: u32 = 10;

/// The most seconds at all.
const SECONDS_MAX: u32 = 60;

/// For how many seconds the next connection is watched, after an attempt whose connection was closed before an answer: `seconds` is
/// for how many it was before, 0 where the attempts before were not cut so.
pub(crate) fn next_watch(seconds: u32, timeout: u32) -> u32
    ensures { result ≡ next_watch seconds timeout }
{
    if seconds == 0 {
        return timeout.min(FIRST_MAX);
    }
    timeout.max(seconds.saturating_mul(2)).min(SECONDS_MAX)
}

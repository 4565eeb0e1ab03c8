//! The statistics, added up over all channels and all destinations.

ghost use Rattle.std.specs.Prelude.{◌≡◌, length};
ghost use Rattle.stat_count.specs.Sums.{arrivals, settlements, takes};

use stat_count::{CHANNELS, Counts, DESTINATIONS};

/// The messages received, repeats among them.
pub fn arrivals(counts: &Counts) -> u128
    requires { length counts.now.channels ≡ 64 }
    ensures { result ≡ arrivals counts.now }
{
    let mut sum: u128 = 0;
    for channel in 0..CHANNELS {
        let here = counts.channel(channel);
        sum += u128::from(here.received) + u128::from(here.repeats);
    }
    sum
}

/// The attempts that were begun.
pub fn takes(counts: &Counts) -> u128
    requires { length counts.now.destinations ≡ 32 }
    ensures { result ≡ takes counts.now }
{
    let mut sum: u128 = 0;
    for d in 0..DESTINATIONS {
        sum += u128::from(counts.destination(d).attempts);
    }
    sum
}

/// The attempts that were settled.
pub fn settlements(counts: &Counts) -> u128
    requires { length counts.now.destinations ≡ 32 }
    ensures { result ≡ settlements counts.now }
{
    let mut sum: u128 = 0;
    for d in 0..DESTINATIONS {
        let here = counts.destination(d);
        sum += u128::from(here.attempts - here.inflight);
    }
    sum
}

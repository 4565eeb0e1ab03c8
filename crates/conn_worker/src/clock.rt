//! Clocks: the moment at which a message is answered, and those that deliveries go by.

ghost use Rattle.std.specs.Prelude.{◌≡◌, ◌≤◌, ◌+◌, ◌*◌, ◌/◌, min, Some};
ghost use Rattle.std.specs.Duration.{as_nanos};
ghost use Rattle.std.specs.Time.{system_time_nanos};

use hl7_head::{LAST_MOMENT, Moment};
use std::time;
use std::time::{Duration, SystemTime, UNIX_EPOCH};

/// The nanoseconds that are one less than a second.
const ALMOST_A_SECOND: u64 = 999_999_999;

/// A clock: it gives the moment at which a message is answered, and those that deliveries go by.
pub trait Clock {
    /// The moment at which a message is answered.
    fn now(&mut self) -> Moment;

    /// The moment that the taking of a message goes by. A clock that reads fractions of a second rounds it down.
    fn at_take(&mut self) -> Moment {
        self.now()
    }

    /// The moment that the settlement of an attempt goes by, from which the interval to the next attempt counts. A clock
    /// that reads fractions of a second rounds it up, so that no interval is shorter than the plan says.
    fn at_settlement(&mut self) -> Moment {
        self.now()
    }
}

/// The moment that many seconds after the year 1970 began, or the last one.
pub fn nearest(seconds: u64) -> Moment
    ensures { result ≡ min seconds 253_370_764_799 }
{
    Moment::of_unix(seconds.min(LAST_MOMENT) as i64).unwrap()
}

/// A clock whose moment never changes.
#[derive(Clone, Copy)]
pub struct Still(pub Moment);

impl Clock for Still {
    fn now(&mut self) -> Moment
        ensures { result ≡ self.old.0 }
    {
        let Still(moment) = self;
        *moment
    }
}

/// The system's clock. Where it can't be read, or gives a time before the year 1970, it is the first moment; where it
/// gives a time after the last moment, the last.
#[derive(Clone, Copy)]
pub struct Running<'a, C: time::Clock>(pub &'a C);

/// The moment of a time of the system's clock.
fn moment_of(time: SystemTime) -> Moment
    ensures { result ≡ min (system_time_nanos time / 1_000_000_000) 253_370_764_799 }
{
    match time.duration_since(UNIX_EPOCH) {
        Ok(since) => nearest(since.as_secs()),
        Err(_) => nearest(0),
    }
}

impl<C: time::Clock> Clock for Running<'_, C> {
    fn now(&mut self) -> Moment {
        match SystemTime::now(self.0) {
            Ok(time) => moment_of(time),
            Err(_) => nearest(0),
        }
    }
}

/// The last moment that is not after a time, given since the year 1970 began.
fn rounded_down(time: Duration) -> Moment
    ensures { result ≡ min (as_nanos time / 1_000_000_000) 253_370_764_799 }
{
    nearest(time.as_secs())
}

/// The first moment that is not before a time, given since the year 1970 began.
fn rounded_up(time: Duration) -> Moment
    ensures { result ≡ min ((as_nanos time + 999_999_999) / 1_000_000_000) 253_370_764_799 }
{
    nearest(
        time.saturating_add(Duration::from_nanos(ALMOST_A_SECOND))
            .as_secs(),
    )
}

/// A clock for workers. Messages are answered by the system's clock, as [`Running`] gives it. Deliveries go by a time that
/// was the system clock's when this clock was made, and goes on with the monotonic clock: it goes neither back nor ahead
/// where the system's clock is set.
#[derive(Clone, Copy)]
pub struct Steady<'a, C: time::Clock> {
    system: &'a C,
    /// The time since 1970 when this clock was made.
    began: Duration,
    /// The time of the monotonic clock then, where it could be read.
    zero: Option<Duration>,
    /// The time since 1970 that was returned last.
    last: Duration,
}

impl<'a, C: time::Clock> Steady<'a, C> {
    /// A clock that begins with the system's time. Where that can't be read, or is before the year 1970, it begins with that
    /// year.
    pub fn new(system: &'a C) -> Self {
        Steady::not_before(system, 0)
    }

    /// A clock that begins with the system's time, or with this number of seconds since 1970 where that is later: what it is
    /// compared with may have been noted before the system's clock was set back.
    pub fn not_before(system: &'a C, seconds: u64) -> Self
        ensures { seconds * 1_000_000_000 ≤ as_nanos result.last }
    {
        let now = match system.since_1970() {
            Ok(time) => time,
            Err(_) => Duration::ZERO,
        };
        let began = now.max(Duration::from_secs(seconds));
        Steady {
            system,
            began,
            zero: system.monotonic().ok(),
            last: began,
        }
    }

    /// The time since 1970 by the monotonic clock; by the system's where that can't be read.
    fn read(&self) -> Option<Duration> {
        match (self.zero, self.system.monotonic()) {
            (Some(zero), Ok(now)) => Some(self.began.saturating_add(now.saturating_sub(zero))),
            _ => self.system.since_1970().ok(),
        }
    }

    /// The time since 1970 that deliveries go by, never before one that was returned.
    fn time(&mut self) -> Duration
        ensures { as_nanos self.old.last ≤ as_nanos result }
    {
        if let Some(now) = self.read()
            && now > self.last
        {
            self.last = now;
        }
        self.last
    }
}

impl<C: time::Clock> Clock for Steady<'_, C> {
    fn now(&mut self) -> Moment {
        Running(self.system).now()
    }

    fn at_take(&mut self) -> Moment {
        rounded_down(self.time())
    }

    fn at_settlement(&mut self) -> Moment {
        rounded_up(self.time())
    }
}

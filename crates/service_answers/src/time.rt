//! Moments, as answers show them.

use jiff::Timestamp;
use std::fmt;

/// A moment in seconds since 1970, shown in UTC as `2026-11-26T10:12:38Z`, and as a number of seconds where the calendar
/// doesn't have it.
#[derive(Clone, Copy, Debug, PartialEq, Eq)]
pub struct Utc(pub u64);

impl fmt::Display for Utc {
    fn fmt<W: fmt::Write>(&self, f: &mut fmt::Formatter<W>) -> fmt::Result {
        let Utc(seconds) = *self;
        match Timestamp::from_second(i64::try_from(seconds).unwrap_or(i64::MAX)) {
            Ok(time) => write!(f, "{time}"),
            Err(_) => write!(f, "{seconds}"),
        }
    }
}

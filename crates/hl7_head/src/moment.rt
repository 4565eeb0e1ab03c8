ghost use Rattle.std.specs.Prelude.{◌≡◌, ◌↔◌, ◌≤◌, pos, ◌≤ℤ◌, IsOk, IfOk};

use fixed_numbers::LAST_MOMENT;
use std::marker::Model;
use thiserror::Error;

/// A moment: whole seconds since the year 1970 began, in UTC and without leap seconds, up to [`LAST_MOMENT`].
#[derive(Clone, Copy, Debug, PartialEq, Eq)]
pub struct Moment {
    seconds: u64,
}

impl Model for Moment {
    ghost use Rattle.std.specs.Prelude.{ℕ, ◌≤◌};

    ghost Value = { ℕ };

    ghost view = { λ m. m.seconds };

    ghost invariant = { λ m. m.seconds ≤ 253370764799 };

    ghost inverse = { λ n. record { seconds = n } };
}

/// The seconds lie before the first moment or after the last.
#[derive(Clone, Copy, Debug, PartialEq, Eq, Error)]
#[error("a moment lies in the years 1970 to 9998")]
pub struct MomentRange;

impl Moment {
    /// The moment that many seconds after the year 1970 began.
    ///
    /// # Errors
    ///
    /// Seconds below 0 and above [`LAST_MOMENT`] are no moment.
    pub fn of_unix(seconds: i64) -> Result<Moment, MomentRange>
        ensures range { IsOk result ↔ ((pos 0 ≤ℤ seconds) × (seconds ≤ℤ pos 253370764799)) }
        ensures value { IfOk result (λ moment. pos moment ≡ seconds) }
    {
        match u64::try_from(seconds) {
            Ok(seconds) if seconds <= LAST_MOMENT => Ok(Moment { seconds }),
            _ => Err(MomentRange),
        }
    }

    /// The moment at which the year 1970 began.
    pub fn epoch() -> Moment
        ensures { result ≡ 0 }
    {
        Moment { seconds: 0 }
    }

    /// The seconds since the year 1970 began.
    pub fn secs(self) -> u64
        ensures value { result ≡ self }
        ensures bound { result ≤ 253370764799 }
    {
        self.seconds
    }
}

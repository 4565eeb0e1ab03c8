ghost use Rattle.std.specs.Prelude.{◌≡◌, ◌≤◌, unsigned_abs};
ghost use Rattle.hl7_head.specs.Calendar.{civil_date};

use jiff_core::civil::Date;

/// The number of the last day that has a moment, 31 December 9998.
pub const LAST_DAY: u32 = 2_932_531;

/// The date that many days after 1 January 1970.
pub(crate) fn civil(days: u32) -> Date
    requires { days ≤ LAST_DAY }
    ensures { civil_date days ≡ record { year = unsigned_abs result.year; month = result.month; day = result.day } }
{
    Date::from_unix_epoch_day(days as i64).unwrap()
}

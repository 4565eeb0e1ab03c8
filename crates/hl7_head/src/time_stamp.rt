ghost use Rattle.std.specs.Prelude.{◌≡◌};
ghost use Rattle.hl7_head.specs.Stamp.{stamp as stamp_of, two_digits};

use crate::civil::civil;
use crate::moment::Moment;

/// The bytes of a stamp: year to second, and the offset.
pub const STAMP_BYTES: usize = 19;

/// The seconds of a day; there are no leap seconds in Unix time.
pub const SECONDS_PER_DAY: u64 = 86_400;

/// The seconds of an hour.
pub const SECONDS_PER_HOUR: u32 = 3_600;

/// The seconds of a minute.
pub const SECONDS_PER_MINUTE: u32 = 60;

/// The ASCII digit 0; the digits 1 to 9 follow it.
pub const ZERO: u8 = b'0';

/// The last two decimal digits of a number.
fn two_digits(number: u32) -> [u8; 2]
    ensures { result ≡ two_digits number }
{
    [ZERO + (number / 10 % 10) as u8, ZERO + (number % 10) as u8]
}

/// A moment as MSH-7 bears it: year to second in UTC, `YYYYMMDDHHMMSS`, and the offset `+0000` (data type TS).
pub fn stamp(moment: Moment) -> [u8; STAMP_BYTES]
    ensures { result ≡ stamp_of moment }
{
    let seconds = moment.secs();
    let date = civil((seconds / SECONDS_PER_DAY) as u32);
    let time = (seconds % SECONDS_PER_DAY) as u32;
    let year = date.year.unsigned_abs() as u32;
    let [year_1, year_2] = two_digits(year / 100);
    let [year_3, year_4] = two_digits(year % 100);
    let [month_1, month_2] = two_digits(date.month as u32);
    let [day_1, day_2] = two_digits(date.day as u32);
    let [hour_1, hour_2] = two_digits(time / SECONDS_PER_HOUR);
    let [minute_1, minute_2] = two_digits(time / SECONDS_PER_MINUTE % 60);
    let [second_1, second_2] = two_digits(time % SECONDS_PER_MINUTE);
    [
        year_1, year_2, year_3, year_4, month_1, month_2, day_1, day_2, hour_1, hour_2, minute_1,
        minute_2, second_1, second_2, b'+', b'0', b'0', b'0', b'0',
    ]
}

//! Day numbers of civil dates.
ghost use Rattle.jiff_core.specs.Calendar.{IsEpochDay, IsBetween};
ghost use Rattle.jiff_core.specs.Date.{epoch_day, IsYmd};
ghost use Rattle.std.specs.Int.{IsInRange};
ghost use Rattle.std.specs.Prelude.{◌≡◌, ◌≤◌, pos};
ghost use Rattle.timex_dates.specs.Seconds as seconds;
ghost use Rattle.timex_dates.specs.Seconds.{IsDayNumber, monday_of};
ghost use Rattle.timex_value.specs.Civil.{IsDate, day_index, month_length, weekday};

use jiff::civil::{Date, date};

/// The date, which `jiff` has up to 9999-12-31.
fn date_of(year: u16, month: u8, day: u8) -> Date
    requires date { IsDate year month day }
    requires year { year ≤ 9999 }
    ensures { IsYmd (pos year) (pos month) (pos day) result }
{
    date(year as i16, month as i8, day as i8)
}

/// The days from 1970-01-01 up to a date.
fn number_of(date: Date) -> i64
    ensures value { result ≡ epoch_day date }
    ensures bound { IsEpochDay result }
{
    i64::from(date.to_plain().to_unix_epoch_day())
}

/// The day number of a date of the calendar.
#[tactic(auto, using(crate::proofs::Jiff::days_are))]
pub(crate) fn day_number(year: u16, month: u8, day: u8) -> i64
    requires date { IsDate year month day }
    requires year { year ≤ 9999 }
    ensures value { result ≡ seconds.day_number (day_index year month day) }
    ensures bound { IsDayNumber result }
{
    number_of(date_of(year, month, day))
}

/// How many days after Monday.
#[tactic(auto, using(crate::proofs::Jiff::weekdays_are))]
fn weekday_number(year: u16, month: u8, day: u8) -> i64
    requires date { IsDate year month day }
    requires year { year ≤ 9999 }
    ensures value { result ≡ pos (weekday (day_index year month day)) }
    ensures bound { IsBetween (pos 0) (pos 6) result }
{
    i64::from(date_of(year, month, day).weekday().to_monday_zero_offset())
}

/// The day number of the Monday of a date's week.
pub(crate) fn monday_number(year: u16, month: u8, day: u8) -> i64
    requires date { IsDate year month day }
    requires year { year ≤ 9999 }
    ensures value { result ≡ seconds.day_number (monday_of (day_index year month day)) }
    ensures bound { IsDayNumber result }
{
    day_number(year, month, day) - weekday_number(year, month, day)
}

/// The last day of a month.
pub(crate) fn last_of_month(year: u16, month: u8) -> u8
    requires month { IsInRange 1 12 month }
    requires year { IsInRange 1 9999 year }
    ensures value { result ≡ month_length year month }
    ensures bound { IsInRange 28 31 result }
{
    date_of(year, month, 1).days_in_month() as u8
}

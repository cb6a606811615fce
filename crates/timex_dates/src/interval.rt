//! Intervals of seconds.
ghost use Rattle.std.specs.Int.{IsInRange};
ghost use Rattle.std.specs.Prelude.{◌*◌, ◌*ℤ◌, ◌+◌, ◌+ℤ◌, ◌-◌, ◌≡◌, ◌≤◌, ◌≤ℤ◌, ◌<◌, pos};
ghost use Rattle.timex_dates.specs.Seconds as seconds;
ghost use Rattle.timex_dates.specs.Seconds.{Extent, IsCivilSecond, IsDayNumber};
ghost use Rattle.timex_dates.specs.Sets.{InDay, InHalf, InHour, InMinute, InMonth, InQuarter, InSecond, InWeek, InWeekYears, InWeekday, InYears};
ghost use Rattle.timex_value.specs.Civil.{IsDate, day_index, month_length, weeks_of};
ghost use Rattle.timex_value.specs.Years.{HasYear};

use crate::days::{day_number, last_of_month, monday_number};
use timex_value::Year;

/// From the first second up to the first second after it.
#[derive(Clone, Copy)]
pub(crate) struct Interval {
    pub lo: i64,
    pub hi: i64,
}

/// From the start of a day up to a number of days after the start of another one.
fn days_to(first: i64, last: i64, count: u8) -> Interval
    requires first { IsDayNumber first }
    requires last { IsDayNumber last }
    requires count { count ≤ 7 }
    requires end { (last +ℤ pos count) ≤ℤ pos 2_932_899 }
    ensures lo { result.lo ≡ first *ℤ pos 86_400 }
    ensures hi { result.hi ≡ (last +ℤ pos count) *ℤ pos 86_400 }
    ensures range { IsCivilSecond result.lo × IsCivilSecond result.hi }
{
    Interval {
        lo: first * 86_400,
        hi: (last + i64::from(count)) * 86_400,
    }
}

/// A number of days, from a number of days after the first.
fn days_after(first: i64, skip: u16, count: u8) -> Interval
    requires first { IsDayNumber first }
    requires end { (first +ℤ pos (skip + count)) ≤ℤ pos 2_932_899 }
    ensures lo { result.lo ≡ (first +ℤ pos skip) *ℤ pos 86_400 }
    ensures hi { result.hi ≡ result.lo +ℤ pos (count * 86_400) }
    ensures range { IsCivilSecond result.lo × IsCivilSecond result.hi }
{
    let lo = (first + i64::from(skip)) * 86_400;
    Interval {
        lo,
        hi: lo + i64::from(count) * 86_400,
    }
}

/// A number of seconds, from a number of seconds after the start of a day.
fn part_of_day(number: i64, from: u32, size: u16) -> Interval
    requires number { IsDayNumber number }
    requires from { from ≤ 90_000 }
    requires size { size ≤ 3600 }
    ensures lo { result.lo ≡ number *ℤ pos 86_400 +ℤ pos from }
    ensures hi { result.hi ≡ result.lo +ℤ pos size }
    ensures range { IsCivilSecond result.lo × IsCivilSecond result.hi }
{
    let lo = number * 86_400 + i64::from(from);
    Interval {
        lo,
        hi: lo + i64::from(size),
    }
}

/// The days of years.
#[tactic(auto, using(timex_value::proofs::Years::year_written))]
pub(crate) fn years(year: Year) -> Interval
    requires { HasYear year }
    ensures extent { Extent (InYears year) result.lo result.hi }
    ensures range { IsCivilSecond result.lo × IsCivilSecond result.hi }
{
    let (first, last) = year.range();
    days_to(day_number(first, 1, 1), day_number(last, 12, 31), 1)
}

/// The weeks of years, where the first week of a year has 4 January and the last one 28 December.
#[tactic(auto, using(timex_value::proofs::Years::year_written))]
pub(crate) fn week_years(year: Year) -> Interval
    requires { HasYear year }
    ensures extent { Extent (InWeekYears year) result.lo result.hi }
    ensures range { IsCivilSecond result.lo × IsCivilSecond result.hi }
{
    let (first, last) = year.range();
    days_to(monday_number(first, 1, 4), monday_number(last, 12, 28), 7)
}

/// The days of the months from a first to a last one.
fn months(year: u16, first: u8, last: u8) -> Interval
    requires year { IsInRange 1 9999 year }
    requires first { IsInRange 1 last first }
    requires last { last ≤ 12 }
    ensures lo { result.lo ≡ seconds.day_number (day_index year first 1) *ℤ pos 86_400 }
    ensures hi { result.hi ≡ (seconds.day_number (day_index year last (month_length year last)) +ℤ pos 1) *ℤ pos 86_400 }
    ensures range { IsCivilSecond result.lo × IsCivilSecond result.hi }
{
    let end = last_of_month(year, last);
    days_to(day_number(year, first, 1), day_number(year, last, end), 1)
}

/// The days of a month.
#[tactic(auto, using(crate::proofs::Extents::month_extent))]
pub(crate) fn month(year: u16, month: u8) -> Interval
    requires year { IsInRange 1 9999 year }
    requires month { IsInRange 1 12 month }
    ensures extent { Extent (InMonth year month) result.lo result.hi }
    ensures range { IsCivilSecond result.lo × IsCivilSecond result.hi }
{
    months(year, month, month)
}

/// The days of the three months of a quarter.
#[tactic(auto, using(crate::proofs::Extents::quarter_extent))]
pub(crate) fn quarter(year: u16, quarter: u8) -> Interval
    requires year { IsInRange 1 9999 year }
    requires quarter { IsInRange 1 4 quarter }
    ensures extent { Extent (InQuarter year quarter) result.lo result.hi }
    ensures range { IsCivilSecond result.lo × IsCivilSecond result.hi }
{
    months(year, 3 * quarter - 2, 3 * quarter)
}

/// The days of the six months of a half.
#[tactic(auto, using(crate::proofs::Extents::half_extent))]
pub(crate) fn half(year: u16, half: u8) -> Interval
    requires year { IsInRange 1 9999 year }
    requires half { IsInRange 1 2 half }
    ensures extent { Extent (InHalf year half) result.lo result.hi }
    ensures range { IsCivilSecond result.lo × IsCivilSecond result.hi }
{
    months(year, 6 * half - 5, 6 * half)
}

/// A whole day.
#[tactic(auto, using(crate::proofs::Extents::day_extent))]
pub(crate) fn day(year: u16, month: u8, day: u8) -> Interval
    requires date { IsDate year month day }
    requires limit { year ≤ 9999 }
    ensures extent { Extent (InDay year month day) result.lo result.hi }
    ensures range { IsCivilSecond result.lo × IsCivilSecond result.hi }
{
    let number = day_number(year, month, day);
    days_to(number, number, 1)
}

/// A week of a year, whose first week has 4 January.
#[tactic(auto, using(crate::proofs::Extents::week_extent, timex_value::proofs::Days::weeks_closed, crate::proofs::Intervals::week_end))]
pub(crate) fn week(year: u16, week: u8) -> Interval
    requires year { IsInRange 1 9999 year }
    requires week { IsInRange 1 (weeks_of year) week }
    ensures extent { Extent (InWeek year week) result.lo result.hi }
    ensures range { IsCivilSecond result.lo × IsCivilSecond result.hi }
{
    days_after(monday_number(year, 1, 4), 7 * (u16::from(week) - 1), 7)
}

/// A day of a week, where Monday is 1.
#[tactic(auto, using(crate::proofs::Extents::weekday_extent, timex_value::proofs::Days::weeks_closed, crate::proofs::Intervals::week_end))]
pub(crate) fn weekday(year: u16, week: u8, day: u8) -> Interval
    requires year { IsInRange 1 9999 year }
    requires week { IsInRange 1 (weeks_of year) week }
    requires day { IsInRange 1 7 day }
    ensures extent { Extent (InWeekday year week day) result.lo result.hi }
    ensures range { IsCivilSecond result.lo × IsCivilSecond result.hi }
{
    days_after(
        monday_number(year, 1, 4),
        7 * (u16::from(week) - 1) + (u16::from(day) - 1),
        1,
    )
}

/// An hour of a day. Hour 24 is hour 0 of the next day, which need not be one of `jiff`.
#[tactic(auto, using(crate::proofs::Extents::hour_extent))]
pub(crate) fn hour(year: u16, month: u8, day: u8, hour: u8) -> Interval
    requires date { IsDate year month day }
    requires limit { year ≤ 9999 }
    requires hour { hour ≤ 24 }
    ensures extent { Extent (InHour year month day hour) result.lo result.hi }
    ensures range { IsCivilSecond result.lo × IsCivilSecond result.hi }
{
    part_of_day(day_number(year, month, day), u32::from(hour) * 3600, 3600)
}

/// A minute of an hour.
#[tactic(auto, using(crate::proofs::Extents::minute_extent))]
pub(crate) fn minute(year: u16, month: u8, day: u8, hour: u8, minute: u8) -> Interval
    requires date { IsDate year month day }
    requires limit { year ≤ 9999 }
    requires hour { hour ≤ 24 }
    requires minute { minute < 60 }
    ensures extent { Extent (InMinute year month day hour minute) result.lo result.hi }
    ensures range { IsCivilSecond result.lo × IsCivilSecond result.hi }
{
    let from = u32::from(hour) * 3600 + u32::from(minute) * 60;
    part_of_day(day_number(year, month, day), from, 60)
}

/// A second of a minute.
#[tactic(auto, using(crate::proofs::Extents::second_extent))]
pub(crate) fn second(year: u16, month: u8, day: u8, hour: u8, minute: u8, second: u8) -> Interval
    requires date { IsDate year month day }
    requires limit { year ≤ 9999 }
    requires hour { hour ≤ 24 }
    requires minute { minute < 60 }
    requires second { second < 60 }
    ensures extent { Extent (InSecond year month day hour minute second) result.lo result.hi }
    ensures range { IsCivilSecond result.lo × IsCivilSecond result.hi }
{
    let from = u32::from(hour) * 3600 + u32::from(minute) * 60 + u32::from(second);
    part_of_day(day_number(year, month, day), from, 1)
}

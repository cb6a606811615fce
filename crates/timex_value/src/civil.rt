//! The civil calendar, and the weeks of ISO 8601.
ghost use Rattle.std.specs.Prelude.{◌≡◌, ◌≤◌, ◌<◌};
ghost use Rattle.std.specs.Int.{IsInRange};
ghost use Rattle.timex_value.specs.Civil as civil;

fn is_leap(year: u16) -> bool
    ensures { result ≡ civil.is_leap year }
{
    year % 4 == 0 && (year % 100 != 0 || year % 400 == 0)
}

fn year_length(year: u16) -> u16
    ensures value { result ≡ civil.year_length year }
    ensures bound { IsInRange 365 366 result }
{
    if is_leap(year) { 366 } else { 365 }
}

pub(crate) fn month_length(year: u16, month: u8) -> u8
    ensures value { result ≡ civil.month_length year month }
    ensures bound { IsInRange 28 31 result }
{
    match month {
        2 => { if is_leap(year) { 29 } else { 28 } }
        4 | 6 | 9 | 11 => 30,
        _ => 31,
    }
}

/// The days before a year.
#[tactic(auto, using(crate::proofs::Days::year_start_closed))]
fn year_start(year: u16) -> u32
    requires { 1 ≤ year }
    ensures value { result ≡ civil.year_start year }
    ensures bound { result < 25_000_000 }
{
    let before = u32::from(year) - 1;
    365 * before + before / 4 - before / 100 + before / 400
}

/// The ISO weeks of a year, one for each of its Thursdays.
#[tactic(auto, using(crate::proofs::Days::weeks_closed))]
pub(crate) fn weeks_of(year: u16) -> u8
    requires { 1 ≤ year }
    ensures value { result ≡ civil.weeks_of year }
    ensures bound { IsInRange 52 53 result }
{
    let start = year_start(year) + 3;
    ((start + u32::from(year_length(year))) / 7 - start / 7) as u8
}

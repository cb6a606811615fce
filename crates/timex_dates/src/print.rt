//! Printing civil texts.
ghost use Rattle.std.specs.Prelude.{◌+◌, ◌-◌, ◌/◌, ◌%◌, ◌≤◌};
ghost use Rattle.timex_dates.specs.Printed.{bytes_of, IsCivilText};
ghost use Rattle.timex_dates.specs.Seconds.{IsCivilSecond};
ghost use Rattle.timex_value.specs.Civil.{IsDateOf};

use crate::CivilText;
use jiff_core::civil::Date;

/// The days from 0001-01-01 up to 10000-01-01.
const DAYS: u32 = 3_652_059;

/// The days from -9999-01-01, which is the first one of `jiff`, up to 0001-01-01.
const DAYS_BEFORE: u32 = 3_652_425;

/// The date of a day counted from 0001-01-01. The last days are past those of `jiff`.
#[tactic(auto, using(crate::proofs::Jiff::last_year))]
fn date_at(day: u32) -> (u16, u8, u8)
    requires { day ≤ 3_652_061 }
    ensures date { IsDateOf day result.0 result.1 result.2 }
    ensures year { result.0 ≤ 10_000 }
{
    if day >= DAYS {
        return (10_000, 1, (day - DAYS + 1) as u8);
    }
    let date = Date::from_days_since_min(day + DAYS_BEFORE);
    (date.year.unsigned_abs(), date.month, date.day)
}

/// The civil date and time of a second that is counted from 1970-01-01T00:00:00, without a zone. It is from
/// 0001-01-01T00:00:00 to 10000-01-03T00:00:00, so from -62135596800 to 253402473600.
pub fn civil_text(second: i64) -> CivilText
    requires { IsCivilSecond second }
    ensures { IsCivilText second (bytes_of result) }
{
    let since = (second + 62_135_596_800) as u64;
    let (year, month, day) = date_at((since / 86_400) as u32);
    CivilText::new(year, month, day, (since % 86_400) as u32)
}

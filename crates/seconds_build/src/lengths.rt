//! How long times last.
ghost use Rattle.seconds_build.specs.Lengths as spec;
ghost use Rattle.seconds_core.specs.Timed.{AreLengths, max_length};
ghost use Rattle.std.specs.Prelude.{IfSome, option_map, pos, ◌*◌, ◌<ℤ◌, ◌<◌, ◌≡◌, ◌≤ℤ◌, ◌≤◌, ◌^◌};
ghost use Rattle.timex_value.specs.Durations as durations;

use seconds_core::{Limits, MAX_LENGTH};
use timex_value::{Count, Length, Modifier, TimexKind, Value};

const MINUTE: u64 = 60;

const HOUR: u64 = 60 * MINUTE;

const DAY: u64 = 24 * HOUR;

const WEEK: u64 = 7 * DAY;

pub(crate) const NO_LIMITS: Limits = Limits {
    least: None,
    most: None,
};

fn is_present(count: Count) -> bool
    ensures { result ≡ durations.is_present count }
{
    !matches!(count, Count::Absent)
}

/// How many there are of a unit: none where it is not written, and unknown where an `X` is.
fn number_of(count: Count) -> Option<u64>
    ensures number { result ≡ spec.count_number count }
    ensures bound { IfSome result (λ n. n < 2 ^ 32) }
{
    match count {
        Count::Absent => Some(0),
        Count::Number(n) => Some(u64::from(n)),
        Count::Unknown => None,
    }
}

/// The seconds of a duration, where no years and no months are written.
fn seconds_of(length: &Length) -> Option<u64>
    ensures { result ≡ spec.length_seconds length.now }
{
    if is_present(length.years) || is_present(length.months) {
        return None;
    }
    let weeks = number_of(length.weeks)?;
    let days = number_of(length.days)?;
    let hours = number_of(length.hours)?;
    let minutes = number_of(length.minutes)?;
    let seconds = number_of(length.seconds)?;
    Some(weeks * WEEK + days * DAY + hours * HOUR + minutes * MINUTE + seconds)
}

/// The length of a duration: its seconds, where they are below the limit, as those of each text are.
fn length_of(length: &Length) -> Option<i64>
    ensures length { result ≡ option_map pos (spec.length_of length.now) }
    ensures bound { IfSome result (λ n. (pos 0 ≤ℤ n) × (n <ℤ pos max_length)) }
{
    let seconds = seconds_of(length)?;
    if seconds < MAX_LENGTH as u64 {
        Some(seconds as i64)
    } else {
        None
    }
}

fn lasts_at_least(seconds: i64) -> Limits
    ensures { result ≡ spec.lasts_at_least seconds }
{
    Limits {
        least: Some(seconds),
        most: None,
    }
}

fn lasts_at_most(seconds: i64) -> Limits
    ensures { result ≡ spec.lasts_at_most seconds }
{
    Limits {
        least: None,
        most: Some(seconds),
    }
}

/// The limits of what has this modifier, and lasts this number of seconds without it.
fn limits_by(modifier: Option<Modifier>, seconds: i64) -> Limits
    requires least { pos 0 ≤ℤ seconds }
    requires most { seconds <ℤ pos max_length }
    ensures limits { result ≡ spec.limits_by modifier seconds }
    ensures lengths { AreLengths result }
{
    match modifier {
        None => Limits {
            least: Some(seconds),
            most: Some(seconds),
        },
        Some(Modifier::LessThan) => lasts_at_most(seconds - 1),
        Some(Modifier::EqualOrLess) => lasts_at_most(seconds),
        Some(Modifier::MoreThan) => lasts_at_least(seconds + 1),
        Some(Modifier::EqualOrMore) => lasts_at_least(seconds),
        Some(
            Modifier::Before
            | Modifier::After
            | Modifier::OnOrBefore
            | Modifier::OnOrAfter
            | Modifier::Start
            | Modifier::Mid
            | Modifier::End
            | Modifier::Approx,
        ) => NO_LIMITS,
    }
}

/// The limits of how long a time lasts, by its kind, its modifier and its value. A duration has a length where its
/// value has neither years nor months, and no `X`. Without a modifier it lasts that long, with LESS_THAN at least a
/// second less, with EQUAL_OR_LESS no longer, with MORE_THAN at least a second more, and with EQUAL_OR_MORE no less.
/// All else has no limits. It takes no memory.
pub fn limits_of(kind: TimexKind, modifier: Option<Modifier>, value: Option<&Value>) -> Limits
    ensures limits { result ≡ spec.limits_of kind modifier (option_map (λ v. v.now) value.entry) }
    ensures lengths { AreLengths result }
{
    match kind {
        TimexKind::Duration => match value {
            Some(Value::Duration(length)) => match length_of(length) {
                Some(seconds) => limits_by(modifier, seconds),
                None => NO_LIMITS,
            },
            Some(Value::Calendar(_) | Value::Other) | None => NO_LIMITS,
        },
        TimexKind::Date | TimexKind::Time | TimexKind::Set => NO_LIMITS,
    }
}

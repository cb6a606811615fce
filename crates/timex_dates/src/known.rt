//! The known part of a value: what comes before its first `X`.
ghost use Rattle.std.specs.Int.{IsInRange};
ghost use Rattle.std.specs.Prelude.{◌≡◌, ◌<ℤ◌};
ghost use Rattle.timex_dates.specs.KnownParts as parts;
ghost use Rattle.timex_dates.specs.KnownParts.{Belongs, InAllYears, InDate, InHalfDate, InQuarterDate, InShape, InWeekDate};
ghost use Rattle.timex_dates.specs.Seconds.{Extent, IsCivilSecond};
ghost use Rattle.timex_value.specs.Years.{HasYear};
ghost use Rattle.timex_dates.specs.Valid.{HasDateParts, HasHalfPart, HasParts, HasQuarterPart, HasShapeParts, HasWeekParts};

use crate::interval;
use crate::interval::Interval;
use timex_value::{Part, Shape, Year};

/// A field that is unknown, or that the shape does not have.
const X: Part = Part::Unknown;

/// The interval of what comes before the first `X` in a date and its time.
fn date(year: u16, month: Part, day: Part, hour: Part, minute: Part, second: Part) -> Interval
    requires year { IsInRange 1 9999 year }
    requires parts { HasDateParts year month day hour minute second }
    ensures extent { Extent (InDate year month day hour minute second) result.lo result.hi }
    ensures range { IsCivilSecond result.lo × IsCivilSecond result.hi }
{
    let Part::Known(m) = month else {
        return interval::years(Year::Known(year));
    };
    let Part::Known(d) = day else {
        return interval::month(year, m);
    };
    let Part::Known(h) = hour else {
        return interval::day(year, m, d);
    };
    let Part::Known(i) = minute else {
        return interval::hour(year, m, d, h);
    };
    let Part::Known(s) = second else {
        return interval::minute(year, m, d, h, i);
    };
    interval::second(year, m, d, h, i, s)
}

/// The interval of what comes before the first `X` in a week and its day.
fn week_date(year: u16, week: Part, day: Part) -> Interval
    requires year { IsInRange 1 9999 year }
    requires parts { HasWeekParts year week day }
    ensures extent { Extent (InWeekDate year week day) result.lo result.hi }
    ensures range { IsCivilSecond result.lo × IsCivilSecond result.hi }
{
    let Part::Known(w) = week else {
        return interval::week_years(Year::Known(year));
    };
    let Part::Known(d) = day else {
        return interval::week(year, w);
    };
    interval::weekday(year, w, d)
}

/// The interval of what comes before the first `X` in a quarter.
fn quarter_date(year: u16, quarter: Part) -> Interval
    requires year { IsInRange 1 9999 year }
    requires parts { HasQuarterPart quarter }
    ensures extent { Extent (InQuarterDate year quarter) result.lo result.hi }
    ensures range { IsCivilSecond result.lo × IsCivilSecond result.hi }
{
    let Part::Known(q) = quarter else {
        return interval::years(Year::Known(year));
    };
    interval::quarter(year, q)
}

/// The interval of what comes before the first `X` in a half.
fn half_date(year: u16, half: Part) -> Interval
    requires year { IsInRange 1 9999 year }
    requires parts { HasHalfPart half }
    ensures extent { Extent (InHalfDate year half) result.lo result.hi }
    ensures range { IsCivilSecond result.lo × IsCivilSecond result.hi }
{
    let Part::Known(h) = half else {
        return interval::years(Year::Known(year));
    };
    interval::half(year, h)
}

/// The interval of a value whose year is known.
fn in_year(year: u16, shape: Shape) -> Interval
    requires year { IsInRange 1 9999 year }
    requires parts { HasShapeParts year shape }
    ensures extent { Extent (InShape year shape) result.lo result.hi }
    ensures range { IsCivilSecond result.lo × IsCivilSecond result.hi }
{
    match shape {
        Shape::Year | Shape::Decade | Shape::Century => interval::years(Year::Known(year)),
        Shape::Month { month } => date(year, month, X, X, X, X),
        Shape::Day { month, day } => date(year, month, day, X, X, X),
        Shape::Week { week } => week_date(year, week, X),
        Shape::Weekday { week, day } => week_date(year, week, day),
        Shape::Quarter { quarter } => quarter_date(year, quarter),
        Shape::Hour { month, day, hour } => date(year, month, day, hour, X, X),
        Shape::Minute {
            month,
            day,
            hour,
            minute,
        } => date(year, month, day, hour, minute, X),
        Shape::Second {
            month,
            day,
            hour,
            minute,
            second,
        } => date(year, month, day, hour, minute, second),
        Shape::Half { half } => half_date(year, half),
    }
}

/// The interval of all years that a year can be, which are years of weeks where the shape has a week.
fn all_years(year: Year, shape: Shape) -> Interval
    requires year { HasYear year }
    ensures extent { Extent (InAllYears year shape) result.lo result.hi }
    ensures range { IsCivilSecond result.lo × IsCivilSecond result.hi }
{
    match shape {
        Shape::Week { .. } | Shape::Weekday { .. } => interval::week_years(year),
        Shape::Year
        | Shape::Month { .. }
        | Shape::Day { .. }
        | Shape::Quarter { .. }
        | Shape::Hour { .. }
        | Shape::Minute { .. }
        | Shape::Second { .. }
        | Shape::Half { .. }
        | Shape::Decade
        | Shape::Century => interval::years(year),
    }
}

/// The interval of the known part of a value.
#[tactic(auto, using(crate::proofs::Extents::extent_order))]
pub(crate) fn interval_of(year: Year, shape: Shape) -> Interval
    requires year { HasYear year }
    requires parts { HasParts year shape }
    ensures extent { Extent (Belongs year shape) result.lo result.hi }
    ensures order { result.lo <ℤ result.hi }
    ensures range { IsCivilSecond result.lo × IsCivilSecond result.hi }
{
    match year {
        Year::Known(y) => in_year(y, shape),
        Year::Decade(_) | Year::Century(_) | Year::Unknown => all_years(year, shape),
    }
}

/// Whether a field is not `X`.
fn is_known(part: Part) -> bool
    ensures { result ≡ parts.is_part_known part }
{
    match part {
        Part::Known(_) => true,
        Part::Unknown => false,
    }
}

/// Whether no field after the year is `X`.
fn is_full(shape: Shape) -> bool
    ensures { result ≡ parts.is_full shape }
{
    match shape {
        Shape::Year | Shape::Decade | Shape::Century => true,
        Shape::Month { month } => is_known(month),
        Shape::Day { month, day } => is_known(month) && is_known(day),
        Shape::Week { week } => is_known(week),
        Shape::Weekday { week, day } => is_known(week) && is_known(day),
        Shape::Quarter { quarter } => is_known(quarter),
        Shape::Half { half } => is_known(half),
        Shape::Hour { month, day, hour } => is_known(month) && is_known(day) && is_known(hour),
        Shape::Minute {
            month,
            day,
            hour,
            minute,
        } => is_known(month) && is_known(day) && is_known(hour) && is_known(minute),
        Shape::Second {
            month,
            day,
            hour,
            minute,
            second,
        } => {
            let hour = is_known(month) && is_known(day) && is_known(hour);
            hour && is_known(minute) && is_known(second)
        }
    }
}

/// Whether a shape is a decade or a century.
fn is_years(shape: Shape) -> bool
    ensures { result ≡ parts.is_years shape }
{
    match shape {
        Shape::Decade | Shape::Century => true,
        Shape::Year
        | Shape::Month { .. }
        | Shape::Day { .. }
        | Shape::Week { .. }
        | Shape::Weekday { .. }
        | Shape::Quarter { .. }
        | Shape::Hour { .. }
        | Shape::Minute { .. }
        | Shape::Second { .. }
        | Shape::Half { .. } => false,
    }
}

/// Whether a value with this year and this shape has no `X`.
pub(crate) fn is_whole(year: Year, shape: Shape) -> bool
    ensures { result ≡ parts.is_whole year shape }
{
    match year {
        Year::Known(_) => is_full(shape),
        Year::Decade(_) | Year::Century(_) => is_years(shape),
        Year::Unknown => false,
    }
}

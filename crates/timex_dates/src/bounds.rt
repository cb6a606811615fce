//! Bounds of times.
ghost use Rattle.net_core.specs.Bounds.{AreOrdered};
ghost use Rattle.std.specs.Prelude.{option_map, ◌≡◌};
ghost use Rattle.timex_dates.specs.Answers.{BoundsOf, HasBounds, IsCivil, calendar_precision, modified_precision};
ghost use Rattle.timex_dates.specs.KnownParts as parts;
ghost use Rattle.timex_dates.specs.KnownParts.{Belongs};
ghost use Rattle.timex_dates.specs.Valid.{HasParts};
ghost use Rattle.timex_value.specs.Years.{HasYear};
ghost use Rattle.timex_value.specs.Values as values;

use crate::interval::Interval;
use crate::known::{interval_of, is_whole};
use net_core::Bounds;
use timex_value::{Calendar, Modifier, Shape, TimexKind, Value, Year};

/// The bounds of the known part of a value.
fn modified(modifier: Option<Modifier>, year: Year, shape: Shape) -> Bounds
    requires year { HasYear year }
    requires parts { HasParts year shape }
    ensures bounds { HasBounds (modified_precision modifier (parts.is_whole year shape)) (Belongs year shape) result }
    ensures ordered { AreOrdered result }
    ensures civil { IsCivil result }
{
    let Interval { lo, hi } = interval_of(year, shape);
    let whole = is_whole(year, shape);
    match modifier {
        None if whole => Bounds::Exact { lo, hi },
        None | Some(Modifier::Start | Modifier::Mid | Modifier::End) => Bounds::Within { lo, hi },
        Some(
            Modifier::Before
            | Modifier::After
            | Modifier::OnOrBefore
            | Modifier::OnOrAfter
            | Modifier::LessThan
            | Modifier::MoreThan
            | Modifier::EqualOrLess
            | Modifier::EqualOrMore
            | Modifier::Approx,
        ) => Bounds::Free,
    }
}

/// The year and the shape of a value, whose known part the calendar has.
fn fields_of(calendar: &Calendar) -> (Year, Shape)
    ensures year { result.0 ≡ values.year_of calendar.now }
    ensures shape { result.1 ≡ values.shape_of calendar.now }
    ensures known { HasYear result.0 }
    ensures parts { HasParts result.0 result.1 }
{
    (calendar.year(), calendar.shape())
}

fn calendar_bounds(modifier: Option<Modifier>, calendar: &Calendar) -> Bounds
    ensures bounds { let year = values.year_of calendar.now in
        let shape = values.shape_of calendar.now in
        HasBounds (calendar_precision modifier year shape) (Belongs year shape) result }
    ensures ordered { AreOrdered result }
    ensures civil { IsCivil result }
{
    let (year, shape) = fields_of(calendar);
    match year {
        Year::Known(_) | Year::Decade(_) | Year::Century(_) => modified(modifier, year, shape),
        Year::Unknown => Bounds::Free,
    }
}

/// When a time begins and ends, by its kind, its modifier and its value. A value without `X` and without a modifier has
/// exact bounds. With START, MID or END the time lies within them, and so it does where the value has an `X`: then they
/// are those of the part before the first `X`. With any other modifier, for a duration or a set, without a calendar
/// value, and where the year is all `X`, the bounds are unspecified.
pub fn bounds_of(kind: TimexKind, modifier: Option<Modifier>, value: Option<&Value>) -> Bounds
    ensures bounds { BoundsOf kind modifier (option_map (λ v. v.now) value.entry) result }
    ensures ordered { AreOrdered result }
    ensures civil { IsCivil result }
{
    match kind {
        TimexKind::Date | TimexKind::Time => match value {
            Some(Value::Calendar(calendar)) => calendar_bounds(modifier, calendar),
            Some(Value::Duration(_) | Value::Other) | None => Bounds::Free,
        },
        TimexKind::Duration | TimexKind::Set => Bounds::Free,
    }
}

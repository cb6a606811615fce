//! The points that the calendar gives numbers.
ghost use Rattle.net_core.specs.Nets.{lower, points, upper};
ghost use Rattle.std.specs.Prelude.{IfOk, ◌<◌, ◌≡◌};
ghost use Rattle.walks.specs.Dates.{AreAscending, AreDates, AreDescending, AreDatesFrom, AreOfDistinctPoints, number_at};

use net_core::{Memory, Net};
use std::alloc::Global;
use std::cmp::Reverse;

/// A point, and a number that the calendar gives it.
#[derive(Clone, Copy, PartialEq, Eq)]
pub struct Date {
    pub number: i64,
    pub point: u32,
}

/// Which number of a point: the one that it is not below, or the one that it is not above.
#[derive(Clone, Copy)]
enum Side {
    Lower,
    Upper,
}

/// The points that have a number that they are not below, the least number first.
///
/// # Errors
///
/// Out of memory.
pub fn lowers_of(alloc: Global, net: &Net) -> Result<Vec<Date>, Memory>
    ensures dates { IfOk result (λ dates. AreDates (lower net.now) (points net.now) dates.items) }
    ensures sorted { IfOk result (λ dates. AreAscending dates.items) }
{
    let mut dates = dates_of(alloc, net, Side::Lower)?;
    dates.sort_unstable_by_key(|date| date.number);
    Ok(dates)
}

/// The points that have a number that they are not above, the greatest number first.
///
/// # Errors
///
/// Out of memory.
pub fn uppers_of(alloc: Global, net: &Net) -> Result<Vec<Date>, Memory>
    ensures dates { IfOk result (λ dates. AreDates (upper net.now) (points net.now) dates.items) }
    ensures sorted { IfOk result (λ dates. AreDescending dates.items) }
{
    let mut dates = dates_of(alloc, net, Side::Upper)?;
    dates.sort_unstable_by_key(|date| Reverse(date.number));
    Ok(dates)
}

/// The dates whose numbers are not below a number, of dates with the least number first.
pub fn dates_from(dates: &[Date], number: i64) -> &[Date]
    requires { AreAscending dates.now }
    ensures dates { AreDatesFrom number dates.now result.now }
    ensures sorted { AreAscending result.now }
    ensures once { AreOfDistinctPoints dates.now → AreOfDistinctPoints result.now }
{
    let first = dates.partition_point(|date| date.number < number);
    &dates[first..]
}

/// The points that have a number on this side, in order of the points.
fn dates_of(alloc: Global, net: &Net, side: Side) -> Result<Vec<Date>, Memory>
    ensures { IfOk result (λ dates. AreDates (number_at side net.now) (points net.now) dates.items) }
{
    let mut dates = Vec::new(alloc);
    for point in 0..2 * net.intervals() {
        if let Some(number) = number(net, side, point) {
            dates.push(Date { number, point })?;
        }
    }
    Ok(dates)
}

/// The number of a point on this side, where the calendar gives one.
fn number(net: &Net, side: Side, point: u32) -> Option<i64>
    requires { point < points net.now }
    ensures { result ≡ number_at side net.now point }
{
    match side {
        Side::Lower => net.lower(point),
        Side::Upper => net.upper(point),
    }
}

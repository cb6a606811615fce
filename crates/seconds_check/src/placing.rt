//! Whether seconds are a placing.
ghost use Rattle.net_core.specs.Atoms as atoms;
ghost use Rattle.net_core.specs.Nets.{intervals, link_at, points};
ghost use Rattle.seconds_check.specs.Refusals.{FirstBroken, FirstOutside, FirstUnorderedSeconds, FirstWrongLength, IsMisplaced};
ghost use Rattle.seconds_core.specs.Evidence.{ArePairs};
ghost use Rattle.seconds_core.specs.Placed as spec;
ghost use Rattle.seconds_core.specs.Orders.{AreSecondsInOrder, KeepsOrder};
ghost use Rattle.seconds_core.specs.Placed.{IsBetween, IsPlaced, KeepsBounds, KeepsLimits, KeepsLinkInSeconds, StartsFirstInSeconds};
ghost use Rattle.std.specs.List.{All};
ghost use Rattle.std.specs.Prelude.{IfErr, IfSome, IsTrue, OnOk, length, ◌*◌, ◌+◌, ◌<◌, ◌≡◌, ◌↔◌, ◌<ℤ◌, ◌≤ℤ◌, ◌-ℤ◌};

use crate::refusal::SecondsReason;
use net_core::{Atom, Ends, Rel, orders_of};
use seconds_core::{Limits, Timed};

/// Ok where the seconds are a placing, else the first reason why they are none.
pub fn check_placing(timed: &Timed, seconds: &[i64]) -> Result<(), SecondsReason>
    requires { ArePairs seconds.now }
    ensures ok { OnOk result (IsPlaced timed.now seconds.now) }
    ensures err { IfErr result (IsMisplaced timed.now seconds.now) }
{
    if seconds.len() != timed.origin() as usize {
        return Err(SecondsReason::Size {
            size: (seconds.len() / 2) as u32,
        });
    }
    if let Some(interval) = first_unordered(timed, seconds) {
        return Err(SecondsReason::Order { interval });
    }
    if let Some(link) = first_broken(timed, seconds) {
        return Err(SecondsReason::Link { link });
    }
    if let Some(point) = first_outside(timed, seconds) {
        return Err(SecondsReason::Bound { point });
    }
    if let Some(interval) = first_wrong_length(timed, seconds) {
        return Err(SecondsReason::Length { interval });
    }
    Ok(())
}

/// The first interval whose start is not before its end.
fn first_unordered(timed: &Timed, seconds: &[i64]) -> Option<u32>
    ensures { FirstUnorderedSeconds timed.now seconds.now result }
{
    for interval in 0..timed.net().intervals() {
        if !starts_first(seconds, interval) {
            return Some(interval);
        }
    }
    None
}

/// The first link that does not hold.
fn first_broken(timed: &Timed, seconds: &[i64]) -> Option<u32>
    ensures { FirstBroken timed.now seconds.now result }
{
    for link in 0..timed.net().links() {
        if !keeps_link(timed, seconds, link) {
            return Some(link);
        }
    }
    None
}

/// The first point that is not in the calendar.
fn first_outside(timed: &Timed, seconds: &[i64]) -> Option<u32>
    ensures { FirstOutside timed.now seconds.now result }
{
    for point in 0..timed.origin() {
        if !keeps_bounds(timed, seconds, point) {
            return Some(point);
        }
    }
    None
}

/// The first interval that does not last as long as its limits say.
fn first_wrong_length(timed: &Timed, seconds: &[i64]) -> Option<u32>
    ensures { FirstWrongLength timed.now seconds.now result }
{
    for interval in 0..timed.net().intervals() {
        if !keeps_limits(timed, seconds, interval) {
            return Some(interval);
        }
    }
    None
}

/// The second of a point; that of the origin, which is past them all, is 0.
fn second_at(seconds: &[i64], point: usize) -> i64
    ensures { result ≡ spec.second_at seconds.now point }
{
    seconds.get(point).copied().unwrap_or(0)
}

/// Whether the interval starts before it ends.
fn starts_first(seconds: &[i64], interval: u32) -> bool
    ensures { IsTrue result ↔ StartsFirstInSeconds seconds.now interval }
{
    let start = 2 * interval as usize;
    is_before(second_at(seconds, start), second_at(seconds, start + 1))
}

fn is_before(first: i64, second: i64) -> bool
    ensures { IsTrue result ↔ (first <ℤ second) }
{
    first < second
}

/// Whether the link holds.
fn keeps_link(timed: &Timed, seconds: &[i64], link: u32) -> bool
    requires { link < length timed.now.net.links }
    ensures { IsTrue result ↔ KeepsLinkInSeconds seconds.now (link_at timed.now.net link) }
{
    let link = timed.net().link(link);
    let a = points_of(link.a);
    let b = points_of(link.b);
    keeps_relation(seconds, link.rel, a, b)
}

/// Whether each order that a relation is holds between two intervals of these points.
fn keeps_relation(seconds: &[i64], rel: Rel, a: Ends, b: Ends) -> bool
    ensures { IsTrue result ↔ All (λ order. KeepsOrder seconds.now (atoms.atom_between a b order)) (atoms.orders_of rel) }
{
    orders_of(rel)
        .iter()
        .all(|order| keeps_order(seconds, order.between(a, b)))
}

/// The points of an interval.
fn points_of(interval: u32) -> Ends
    requires { interval < 2147483647 }
    ensures { result ≡ atoms.points_of interval }
{
    Ends {
        start: 2 * interval,
        finish: 2 * interval + 1,
    }
}

/// Whether the seconds of two points are in this order.
fn keeps_order(seconds: &[i64], atom: Atom) -> bool
    ensures { IsTrue result ↔ KeepsOrder seconds.now atom }
{
    let from = second_at(seconds, atom.from as usize);
    let to = second_at(seconds, atom.to as usize);
    are_in_order(atom.strict, from, to)
}

/// Whether one second is before another, or the same where the order is not strict.
fn are_in_order(strict: bool, first: i64, second: i64) -> bool
    ensures { IsTrue result ↔ AreSecondsInOrder strict first second }
{
    if strict {
        first < second
    } else {
        first <= second
    }
}

/// Whether the point is in the calendar.
fn keeps_bounds(timed: &Timed, seconds: &[i64], point: u32) -> bool
    requires { point < points timed.now.net }
    ensures { IsTrue result ↔ KeepsBounds timed.now seconds.now point }
{
    let second = second_at(seconds, point as usize);
    is_between(timed.lower(point), timed.upper(point), i128::from(second))
}

/// Whether the interval lasts as long as its limits say.
fn keeps_limits(timed: &Timed, seconds: &[i64], interval: u32) -> bool
    requires { interval < intervals timed.now.net }
    ensures { IsTrue result ↔ KeepsLimits timed.now seconds.now interval }
{
    let Limits { least, most } = timed.limits(interval);
    is_between(least, most, lasts(seconds, interval))
}

/// How many seconds an interval lasts.
fn lasts(seconds: &[i64], interval: u32) -> i128
    ensures { result ≡ spec.lasts seconds.now interval }
{
    let start = 2 * interval as usize;
    difference(second_at(seconds, start + 1), second_at(seconds, start))
}

/// How far one second is after another.
fn difference(second: i64, first: i64) -> i128
    ensures { result ≡ second -ℤ first }
{
    i128::from(second) - i128::from(first)
}

/// Whether a number is within a lower and an upper one, of those that are there.
fn is_between(low: Option<i64>, high: Option<i64>, number: i128) -> bool
    ensures { IsTrue result ↔ IsBetween low high number }
{
    is_not_below(low, number) && is_not_above(high, number)
}

fn is_not_below(low: Option<i64>, number: i128) -> bool
    ensures { IsTrue result ↔ IfSome low (λ m. m ≤ℤ number) }
{
    match low {
        Some(low) => i128::from(low) <= number,
        None => true,
    }
}

fn is_not_above(high: Option<i64>, number: i128) -> bool
    ensures { IsTrue result ↔ IfSome high (λ m. number ≤ℤ m) }
{
    match high {
        Some(high) => number <= i128::from(high),
        None => true,
    }
}

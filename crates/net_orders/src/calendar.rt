//! The orders of the calendar.
ghost use Rattle.net_orders.specs.Dates as spec;
ghost use Rattle.net_orders.specs.Dates.{ExtendsOrders, ExtendsWithSpans, FollowsAll, FollowsDate, IsNextUpper, PutsLastBefore};
ghost use Rattle.net_orders.specs.Steps.{KeepsDates, KeepsSpans};
ghost use Rattle.net_core.specs.Nets.{lower, points};
ghost use Rattle.net_core.specs.Relations.{Timeline};
ghost use Rattle.net_core.specs.Steps.{calendar_order};
ghost use Rattle.order_closure.specs.Tables.{AreInRange, SatisfiesAll};
ghost use Rattle.std.specs.Prelude.{IfOk, IsSomeAnd, IsTrue, OnOk, Some, ℕ, ◌<◌, ◌≡◌, ◌≤ℤ◌, ◌↔◌};

use net_core::{Atom, Memory, Net};
use std::alloc::Global;
use walks::{Date, dates_from, lowers_of, uppers_of};

/// Orders of the calendar from which all of them follow in timelines in which each interval starts before it ends. Those of a
/// point go to the dates that begin from it on, before the first of these has ended: one for each point of dates that follow
/// each other, and at most the pairs that meet this way if dates overlap.
///
/// # Errors
///
/// Out of memory.
pub fn calendar_orders(alloc: Global, net: &Net) -> Result<Vec<Atom>, Memory>
    ensures in_range { IfOk result (λ orders. AreInRange (points net.now) orders.items) }
    ensures exact { IfOk result (λ orders. (t : Timeline) → KeepsSpans net.now t → SatisfiesAll orders.items t ↔ KeepsDates net.now t) }
{
    let uppers = uppers_of(alloc, net)?;
    let lowers = lowers_of(alloc, net)?;
    let mut orders = Vec::new(alloc);
    let mut last = None;
    for upper in &uppers {
        push_orders(net, *upper, last, &lowers, &mut orders)?;
        if is_fixed(net, *upper) {
            last = Some(*upper);
        }
    }
    Ok(orders)
}

/// Pushes orders so that all points with lower numbers follow a point with an upper number. `last` is the last fixed
/// point before it: if its number is the same, they follow this one as they follow that one.
fn push_orders(
    net: &Net,
    upper: Date,
    last: Option<Date>,
    lowers: &[Date],
    orders: &mut Vec<Atom>,
) -> Result<(), Memory>
    requires next { IsNextUpper net.now lowers.now orders.old.items upper }
    requires last { PutsLastBefore net.now lowers.now orders.old.items last }
    ensures { OnOk result (ExtendsWithSpans net.now (FollowsAll lowers.now upper) orders.old.items orders.new.items) }
{
    match last {
        Some(fixed) if fixed.number == upper.number => push_order(upper, fixed, orders),
        _ => push_orders_from(net, upper, lowers, orders),
    }
}

/// Pushes the orders of a point with an upper number and the points with lower numbers from it on, before the first end of
/// one of these: the rest follow that end.
fn push_orders_from(
    net: &Net,
    upper: Date,
    lowers: &[Date],
    orders: &mut Vec<Atom>,
) -> Result<(), Memory>
    requires { IsNextUpper net.now lowers.now orders.old.items upper }
    ensures { OnOk result (ExtendsWithSpans net.now (FollowsAll lowers.now upper) orders.old.items orders.new.items) }
{
    let later = dates_from(lowers, upper.number);
    let mut first_end = None;
    for lower in later {
        if has_ended(first_end, lower.number) {
            return Ok(());
        }
        push_order(upper, *lower, orders)?;
        first_end = earlier(first_end, end_after(net, lower.point, upper.number));
    }
    Ok(())
}

/// Whether there is an end, and this number is not before it.
fn has_ended(end: Option<i64>, number: i64) -> bool
    ensures { IsTrue result ↔ IsSomeAnd end (λ x. x ≤ℤ number) }
{
    end.is_some_and(|x| x <= number)
}

/// The lesser of two numbers, of those that there are.
fn earlier(one: Option<i64>, other: Option<i64>) -> Option<i64>
    ensures { result ≡ spec.earlier one other }
{
    match (one, other) {
        (Some(x), Some(y)) => Some(x.min(y)),
        _ => one.or(other),
    }
}

/// The first number after this one by which a point, or the interval that it is of, has ended.
fn end_after(net: &Net, point: u32, number: i64) -> Option<i64>
    requires { point < points net.now }
    ensures { result ≡ spec.end_after net.now point number }
{
    let end = 2 * (point / 2) + 1;
    only_after(number, net.upper(point)).or(only_after(number, net.upper(end)))
}

/// A number, if it is after this one.
fn only_after(number: i64, end: Option<i64>) -> Option<i64>
    ensures { result ≡ spec.only_after number end }
{
    end.filter(|end| number < *end)
}

/// Pushes the order of a point with an upper number and one with a lower number, if the calendar orders them and they
/// are not the same.
fn push_order(upper: Date, lower: Date, orders: &mut Vec<Atom>) -> Result<(), Memory>
    ensures { OnOk result ((n : ℕ) → AreInRange n orders.old.items → upper.point < n → lower.point < n
        → ExtendsOrders n (FollowsDate upper lower) orders.old.items orders.new.items) }
{
    if upper == lower {
        return Ok(());
    }
    let Some(order) = order_of(upper, lower) else {
        return Ok(());
    };
    orders.push(order)?;
    Ok(())
}

/// Whether a point with this upper number has it as its lower number too.
fn is_fixed(net: &Net, date: Date) -> bool
    requires { date.point < points net.now }
    ensures { IsTrue result ↔ (lower net.now date.point ≡ Some date.number) }
{
    net.lower(date.point) == Some(date.number)
}

/// The order of a point with an upper number and one with a lower number, if the calendar gives one.
fn order_of(upper: Date, lower: Date) -> Option<Atom>
    ensures { result ≡ calendar_order (Some upper.number) (Some lower.number) upper.point lower.point }
{
    if upper.number > lower.number {
        return None;
    }
    Some(Atom {
        from: upper.point,
        to: lower.point,
        strict: upper.number < lower.number,
    })
}

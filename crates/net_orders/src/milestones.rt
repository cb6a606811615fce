//! The orders that hold without any link, hardly more of them than there are points.
ghost use Rattle.net_orders.specs.Dates.{ExtendsOrders};
ghost use Rattle.net_orders.specs.Milestones.{ArePlacedBefore, AreWithMilestones, IsAtMost, IsBeforeNext, IsPlaceFrom, LeadsToFirst, SaysDates};
ghost use Rattle.net_core.specs.Atoms.{IsInRange, Satisfies};
ghost use Rattle.net_core.specs.Limits.{max_points};
ghost use Rattle.order_closure.specs.Tables.{AreInRange};
ghost use Rattle.std.specs.List.{All};
ghost use Rattle.std.specs.List.Sorted.{IsPermutation};
ghost use Rattle.std.specs.Prelude.{IfOk, OnOk, false, length, true, ℕ, ◌*◌, ◌+◌, ◌<◌, ◌^◌, ◌≡◌, ◌≤◌};
ghost use Rattle.walks.specs.Dates.{AreAscending, AreDatesBelow};

use crate::links::span_order;
use net_core::{Atom, Memory, Net};
use std::alloc::Global;
use std::cmp::Reverse;
use walks::{Date, lowers_of, uppers_of};

/// The orders that hold without any link, those of the calendar by way of *milestones*: further points, one for each point
/// with a lower number. A milestone is no later than its point, nor than the next milestone. A point with an upper number is
/// no later than the first milestone from that number on, and before the first one past it. So there are at most five orders
/// for each point, though there can be as many pairs of points as the square of their number. Those that leave the last point in
/// the course of the calendar come first, so that ranks that they raise mostly settle in one turn.
///
/// # Errors
///
/// Out of memory.
pub fn orders_with_milestones(alloc: Global, net: &Net) -> Result<Vec<Atom>, Memory>
    ensures { IfOk result (λ orders. AreWithMilestones net.now orders.items) }
{
    let mut orders = said_with_milestones(alloc, net)?;
    let places = places_of(alloc, net)?;
    sort_by_places(&mut orders, &places);
    Ok(orders)
}

/// The same in some sequence.
fn said_with_milestones(alloc: Global, net: &Net) -> Result<Vec<Atom>, Memory>
    ensures { IfOk result (λ orders. AreWithMilestones net.now orders.items) }
{
    let mut orders = calendar_with_milestones(alloc, net)?;
    for interval in 0..net.intervals() {
        push(span_order(interval), &mut orders)?;
    }
    Ok(orders)
}

/// The same of the calendar alone.
fn calendar_with_milestones(alloc: Global, net: &Net) -> Result<Vec<Atom>, Memory>
    ensures { IfOk result (λ orders. SaysDates net.now orders.items) }
{
    let points = 2 * net.intervals();
    let lowers = lowers_of(alloc, net)?;
    let uppers = uppers_of(alloc, net)?;
    let mut orders = Vec::new(alloc);
    push_milestones(points, &lowers, &mut orders)?;
    push_next(points, &lowers, &mut orders)?;
    push_uppers(points, &lowers, &uppers, &mut orders)?;
    Ok(orders)
}

/// Pushes that no milestone is later than its point.
fn push_milestones(points: u32, lowers: &[Date], orders: &mut Vec<Atom>) -> Result<(), Memory>
    requires few { points ≤ max_points }
    requires below { AreDatesBelow points lowers.now }
    requires in_range { AreInRange (2 * points) orders.old.items }
    ensures { OnOk result (ExtendsOrders (2 * points) (λ t. (k : ℕ) → k < length lowers.now → IsAtMost points lowers.now k t) orders.old.items orders.new.items) }
{
    for lower in lowers {
        let order = Atom {
            from: points + lower.point,
            to: lower.point,
            strict: false,
        };
        push(order, orders)?;
    }
    Ok(())
}

/// Pushes that no milestone is later than the next one.
fn push_next(points: u32, lowers: &[Date], orders: &mut Vec<Atom>) -> Result<(), Memory>
    requires few { points ≤ max_points }
    requires below { AreDatesBelow points lowers.now }
    requires in_range { AreInRange (2 * points) orders.old.items }
    ensures { OnOk result (ExtendsOrders (2 * points) (λ t. (k : ℕ) → k + 1 < length lowers.now → IsBeforeNext points lowers.now k t) orders.old.items orders.new.items) }
{
    for k in 1..lowers.len() {
        let order = Atom {
            from: points + lowers[k - 1].point,
            to: points + lowers[k].point,
            strict: false,
        };
        push(order, orders)?;
    }
    Ok(())
}

/// Pushes that each point with an upper number is in order with the milestones.
fn push_uppers(
    points: u32,
    lowers: &[Date],
    uppers: &[Date],
    orders: &mut Vec<Atom>,
) -> Result<(), Memory>
    requires few { points ≤ max_points }
    requires ascending { AreAscending lowers.now }
    requires lowers { AreDatesBelow points lowers.now }
    requires uppers { AreDatesBelow points uppers.now }
    requires in_range { AreInRange (2 * points) orders.old.items }
    ensures { OnOk result (ExtendsOrders (2 * points) (λ t. All (λ upper. ArePlacedBefore points lowers.now upper t) uppers.now) orders.old.items orders.new.items) }
{
    for upper in uppers {
        push_upper(points, lowers, *upper, orders)?;
    }
    Ok(())
}

/// Pushes that a point with an upper number is no later than the first milestone from that number on, and before the first
/// one past it.
fn push_upper(
    points: u32,
    lowers: &[Date],
    upper: Date,
    orders: &mut Vec<Atom>,
) -> Result<(), Memory>
    requires few { points ≤ max_points }
    requires ascending { AreAscending lowers.now }
    requires lowers { AreDatesBelow points lowers.now }
    requires upper { upper.point < points }
    requires in_range { AreInRange (2 * points) orders.old.items }
    ensures { OnOk result (ExtendsOrders (2 * points) (ArePlacedBefore points lowers.now upper) orders.old.items orders.new.items) }
{
    let from = first_from(lowers, upper.number);
    push_place(points, lowers, upper, from, false, orders)?;
    let past = first_past(lowers, upper.number);
    push_place(points, lowers, upper, past, true, orders)
}

/// The place of the first date whose number is not below a number, of dates with the least number first.
fn first_from(dates: &[Date], number: i64) -> usize
    requires { AreAscending dates.now }
    ensures { IsPlaceFrom dates.now false number result }
{
    dates.partition_point(|date| date.number < number)
}

/// The place of the first date whose number is above a number, of dates with the least number first.
fn first_past(dates: &[Date], number: i64) -> usize
    requires { AreAscending dates.now }
    ensures { IsPlaceFrom dates.now true number result }
{
    dates.partition_point(|date| date.number <= number)
}

/// Pushes the order of a point with an upper number and the milestone of the date at this place, if there is one: the first
/// from that number on, or the first past it.
fn push_place(
    points: u32,
    lowers: &[Date],
    upper: Date,
    place: usize,
    strict: bool,
    orders: &mut Vec<Atom>,
) -> Result<(), Memory>
    requires few { points ≤ max_points }
    requires lowers { AreDatesBelow points lowers.now }
    requires upper { upper.point < points }
    requires place { IsPlaceFrom lowers.now strict upper.number place }
    requires in_range { AreInRange (2 * points) orders.old.items }
    ensures { OnOk result (ExtendsOrders (2 * points) (LeadsToFirst points lowers.now strict upper) orders.old.items orders.new.items) }
{
    let Some(lower) = lowers.get(place) else {
        return Ok(());
    };
    let order = Atom {
        from: upper.point,
        to: points + lower.point,
        strict,
    };
    push(order, orders)
}

/// Pushes an order.
fn push(order: Atom, orders: &mut Vec<Atom>) -> Result<(), Memory>
    ensures { OnOk result ((n : ℕ) → AreInRange n orders.old.items → IsInRange n order
        → ExtendsOrders n (λ t. Satisfies t order) orders.old.items orders.new.items) }
{
    orders.push(order)?;
    Ok(())
}

/// For each point and milestone its place in the course of the calendar: how many dates come before it, and whether it is an
/// end that leads to the next milestone, a milestone, or a point that one leads to.
fn places_of(alloc: Global, net: &Net) -> Result<Vec<(usize, u8)>, Memory> {
    let points = 2 * net.intervals() as usize;
    let lowers = lowers_of(alloc, net)?;
    let uppers = uppers_of(alloc, net)?;
    let mut places = vec![in alloc; (0, 0); 2 * points]?;
    place_uppers(&lowers, &uppers, &mut places);
    place_lowers(points, &lowers, &mut places);
    Ok(places)
}

/// Places each point with an upper number before the first milestone from that number on.
fn place_uppers(lowers: &[Date], uppers: &[Date], places: &mut [(usize, u8)])
    requires { AreAscending lowers.now }
    ensures { length places.new ≡ length places.old }
{
    for upper in uppers {
        let next = first_from(lowers, upper.number);
        place(upper.point as usize, (next, 0), places);
    }
}

/// Places each point with a lower number after its milestone, and these in the order of the dates.
fn place_lowers(points: usize, lowers: &[Date], places: &mut [(usize, u8)])
    requires { points < 2 ^ 32 }
    ensures { length places.new ≡ length places.old }
{
    for (k, lower) in lowers.iter().enumerate() {
        place(points + lower.point as usize, (k, 1), places);
        place(lower.point as usize, (k, 2), places);
    }
}

/// Gives a point its place.
fn place(point: usize, place: (usize, u8), places: &mut [(usize, u8)])
    ensures { length places.new ≡ length places.old }
{
    if let Some(here) = places.get_mut(point) {
        *here = place;
    }
}

/// Sorts orders by the points that they leave: those that leave the last point in the course of the calendar come first.
fn sort_by_places(orders: &mut [Atom], places: &[(usize, u8)])
    ensures { IsPermutation orders.old orders.new }
{
    orders.sort_unstable_by_key(|order| Reverse(places.get(order.from as usize).copied()));
}

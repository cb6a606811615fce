//! The least ranks with which all orders hold but those of one link.
ghost use Rattle.net_orders.specs.Orders as spec;
ghost use Rattle.net_orders.specs.Orders.{FitsBut, is_of};
ghost use Rattle.net_orders.specs.Raising.{AreLow, AreRanksWithin, RanksRise, RisesUntil};
ghost use Rattle.net_core.specs.Limits.{max_points};
ghost use Rattle.net_core.specs.Ranks.{timeline_of};
ghost use Rattle.order_closure.specs.Tables.{AreInRange};
ghost use Rattle.std.specs.List.{All, position, sum_by};
ghost use Rattle.std.specs.Prelude.{IfOk, IfSome, IsTrue, OnOk, length, unwrap_or, ◌*◌, ◌<◌, ◌↔◌, ◌≡◌, ◌≤◌};

use crate::least::raise_in_turns;
use crate::orders::{Order, orders_but};
use crate::raising::{raise_all, raise_orders, raise_orders_back};
use crate::schedule::schedule_of;
use crate::sequence::sequence_of;
use net_core::{Atom, MAX_POINTS, Memory};
use std::alloc::Global;

/// How many turns ranks are given to settle before a sequence is made for them: without nearly all links that are needed
/// they do so in three.
const FEW_TURNS: u32 = 3;

/// Raises ranks until all orders hold but those of one link, in at most this number of turns. Whether they do: else some rank
/// reached the highest, or the ranks still rose in each turn.
fn settle_in_turns(
    orders: &[Order],
    fixed: &[Atom],
    omitted: u32,
    ranks: &mut [u32],
    turns: u32,
) -> bool
    requires orders { spec.AreOrdersBelow (length ranks.old) orders.now }
    requires fixed { AreInRange (length ranks.old) fixed.now }
    requires few { length ranks.old ≤ 2 * max_points }
    requires within { AreRanksWithin ranks.old }
    ensures rises { RanksRise (FitsBut orders.now fixed.now omitted) ranks.old ranks.new }
    ensures fits { IsTrue result → FitsBut orders.now fixed.now omitted (timeline_of ranks.new) }
    ensures stuck { ¬ IsTrue result → AreLow ranks.new → turns ≤ sum_by (λ rank. rank) ranks.new }
{
    let place = place_of(orders, omitted);
    raise_all(ranks, fixed);
    let mut before = total(ranks);
    for turn in 0..turns {
        raise_turn(orders, fixed, omitted, place, turn % 2 == 0, ranks);
        let after = total(ranks);
        if after == before {
            return are_low(ranks);
        }
        before = after;
    }
    false
}

/// Raises ranks until all orders hold but those of one link: in few turns, or else in a sequence that serves, or in at most
/// this number of turns more. Whether they do. Without turns it takes time linear in the points and orders.
///
/// # Errors
///
/// Out of memory.
pub fn settle_without(
    alloc: Global,
    orders: &[Order],
    fixed: &[Atom],
    omitted: u32,
    ranks: &mut [u32],
    turns: u32,
) -> Result<bool, Memory>
    requires orders { spec.AreOrdersBelow (length ranks.old) orders.now }
    requires fixed { AreInRange (length ranks.old) fixed.now }
    requires few { length ranks.old ≤ 2 * max_points }
    requires within { AreRanksWithin ranks.old }
    ensures rises { OnOk result (RanksRise (FitsBut orders.now fixed.now omitted) ranks.old ranks.new) }
    ensures fits { IfOk result (λ fits. IsTrue fits → FitsBut orders.now fixed.now omitted (timeline_of ranks.new)) }
    ensures stuck { IfOk result (λ fits. ¬ IsTrue fits → AreLow ranks.new → turns ≤ sum_by (λ rank. rank) ranks.new) }
{
    if settle_in_turns(orders, fixed, omitted, ranks, FEW_TURNS) {
        return Ok(true);
    }
    if settle_at_once(alloc, orders, fixed, omitted, ranks)? {
        return Ok(true);
    }
    Ok(settle_in_turns(orders, fixed, omitted, ranks, turns))
}

/// Raises ranks once by all orders but those of one link, in a sequence that serves. Whether all of these hold then.
fn settle_at_once(
    alloc: Global,
    orders: &[Order],
    fixed: &[Atom],
    omitted: u32,
    ranks: &mut [u32],
) -> Result<bool, Memory>
    requires orders { spec.AreOrdersBelow (length ranks.old) orders.now }
    requires fixed { AreInRange (length ranks.old) fixed.now }
    requires few { length ranks.old ≤ 2 * max_points }
    requires within { AreRanksWithin ranks.old }
    ensures rises { OnOk result (RanksRise (FitsBut orders.now fixed.now omitted) ranks.old ranks.new) }
    ensures fits { IfOk result (λ fits. IsTrue fits → FitsBut orders.now fixed.now omitted (timeline_of ranks.new)) }
{
    let points = ranks.len();
    let left = orders_but(alloc, points, orders, fixed, omitted)?;
    let sequence = sequence_of(alloc, points as u32, &left)?;
    let schedule = schedule_of(alloc, points as u32, &left, &sequence)?;
    Ok(raise_in_turns(ranks, &left, &schedule.numbers, 1))
}

/// Raises ranks once by each order but those of one link: forward from a place on and then round to it, or the same way
/// back. So the orders of a closed walk are raised at once, from where it is cut.
fn raise_turn(
    orders: &[Order],
    fixed: &[Atom],
    omitted: u32,
    place: usize,
    forward: bool,
    ranks: &mut [u32],
)
    requires orders { spec.AreOrdersBelow (length ranks.old) orders.now }
    requires fixed { AreInRange (length ranks.old) fixed.now }
    requires place { place ≤ length orders.now }
    requires within { AreRanksWithin ranks.old }
    ensures { RisesUntil (FitsBut orders.now fixed.now omitted) ranks.old ranks.new }
{
    let (before, after) = orders.split_at(place);
    if forward {
        raise_orders(ranks, after, omitted);
        raise_orders(ranks, before, omitted);
    } else {
        raise_orders_back(ranks, before, omitted);
        raise_orders_back(ranks, after, omitted);
    }
    raise_all(ranks, fixed);
}

/// The place of the first order of a link, or 0 if there is none.
fn place_of(orders: &[Order], link: u32) -> usize
    ensures place { result ≡ unwrap_or (position (is_of link) orders.now) 0 }
    ensures within { result ≤ length orders.now }
{
    match first_of(orders, link) {
        Some(place) => place,
        None => 0,
    }
}

/// The place of the first order of a link.
fn first_of(orders: &[Order], link: u32) -> Option<usize>
    ensures place { result ≡ position (is_of link) orders.now }
    ensures within { IfSome result (λ place. place < length orders.now) }
{
    orders.iter().position(|order| order.is_of(link))
}

/// The sum of ranks.
fn total(ranks: &[u32]) -> u64
    requires { length ranks.now ≤ 2 * max_points }
    ensures { result ≡ sum_by (λ rank. rank) ranks.now }
{
    ranks.iter().map(|rank| u64::from(*rank)).sum()
}

/// Whether each rank is below the highest.
fn are_low(ranks: &[u32]) -> bool
    ensures { IsTrue result ↔ All (λ rank. rank < max_points) ranks.now }
{
    ranks.iter().all(|rank| *rank < MAX_POINTS)
}

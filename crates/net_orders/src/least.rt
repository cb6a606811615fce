//! The least timeline that fits a net, by raising ranks over its orders.
ghost use Rattle.net_orders.specs.Raising.{AreRanksWithin, RanksRise};
ghost use Rattle.net_core.specs.Atoms.{IsInRange, Satisfies};
ghost use Rattle.net_core.specs.Least.{AreLeastRanks};
ghost use Rattle.net_core.specs.Ranks.{timeline_of};
ghost use Rattle.order_closure.specs.Tables.{AreInRange, SatisfiesAll};
ghost use Rattle.std.specs.Prelude.{IfOk, IfSome, IsTrue, length, ◌<◌, ◌↔◌};

use crate::orders::{all_orders, fixed_orders};
use crate::raising::raise;
use crate::sequence::sequence_of;
use net_core::{Atom, Memory, Net, Ranks};
use std::alloc::Global;

/// How many turns ranks are given to settle. If no orders lead round they settle in one; of thousands of links, of which
/// many put points together, most do in fewer than sixteen.
const TURNS: u32 = 32;

/// The least timeline that fits a net, if its ranks settle soon. None comes mostly if no timeline fits.
///
/// # Errors
///
/// Out of memory.
pub fn least_timeline(alloc: Global, net: &Net) -> Result<Option<Ranks>, Memory>
    ensures { IfOk result (λ found. IfSome found (AreLeastRanks net.now)) }
{
    let points = 2 * net.intervals();
    let fixed = fixed_orders(alloc, net)?;
    let orders = all_orders(alloc, net, &fixed)?;
    let sequence = sequence_of(alloc, points, &orders)?;
    let mut ranks = vec![in alloc; 0u32; points as usize]?;
    if raise_in_turns(&mut ranks, &orders, &sequence.numbers, TURNS) {
        Ok(Some(Ranks::from_vec(ranks)))
    } else {
        Ok(None)
    }
}

/// Raises ranks until all orders hold, in at most this number of turns. Whether they do.
pub fn raise_in_turns(ranks: &mut [u32], orders: &[Atom], sequence: &[usize], turns: u32) -> bool
    requires in_range { AreInRange (length ranks.old) orders.now }
    requires within { AreRanksWithin ranks.old }
    ensures rises { RanksRise (SatisfiesAll orders.now) ranks.old ranks.new }
    ensures fits { IsTrue result → SatisfiesAll orders.now (timeline_of ranks.new) }
{
    'turns: for _ in 0..turns {
        raise_in_sequence(ranks, orders, sequence);
        if all_hold(ranks, orders) {
            return true;
        }
    }
    false
}

/// Raises ranks by each order of a sequence, from the last back: mostly the orders that lead to a point come before those
/// that leave it.
fn raise_in_sequence(ranks: &mut [u32], orders: &[Atom], sequence: &[usize])
    requires in_range { AreInRange (length ranks.old) orders.now }
    requires within { AreRanksWithin ranks.old }
    ensures { RanksRise (SatisfiesAll orders.now) ranks.old ranks.new }
{
    let mut rest = sequence;
    while let [before @ .., number] = rest {
        raise_by(ranks, orders, *number);
        rest = before;
    }
}

/// Raises ranks by the order of this number, if there is one.
fn raise_by(ranks: &mut [u32], orders: &[Atom], number: usize)
    requires in_range { AreInRange (length ranks.old) orders.now }
    requires within { AreRanksWithin ranks.old }
    ensures { RanksRise (SatisfiesAll orders.now) ranks.old ranks.new }
{
    if let Some(order) = orders.get(number) {
        raise(ranks, *order);
    }
}

/// Whether all orders hold.
fn all_hold(ranks: &[u32], orders: &[Atom]) -> bool
    requires { AreInRange (length ranks.now) orders.now }
    ensures { IsTrue result ↔ SatisfiesAll orders.now (timeline_of ranks.now) }
{
    for order in orders {
        if !holds(ranks, *order) {
            return false;
        }
    }
    true
}

/// Whether an order holds.
fn holds(ranks: &[u32], order: Atom) -> bool
    requires { IsInRange (length ranks.now) order }
    ensures { IsTrue result ↔ Satisfies (timeline_of ranks.now) order }
{
    let (from, to) = (ranks[order.from as usize], ranks[order.to as usize]);
    if order.strict { from < to } else { from <= to }
}

//! Raising the ranks of points until each order holds.
ghost use Rattle.net_orders.specs.Orders as spec;
ghost use Rattle.net_orders.specs.Orders.{AllAreTrueBut, IsTrueBut};
ghost use Rattle.net_orders.specs.Raising.{AreRanksWithin, RisesUntil};
ghost use Rattle.net_core.specs.Atoms.{IsInRange, Satisfies};
ghost use Rattle.order_closure.specs.Tables.{AreInRange, SatisfiesAll};
ghost use Rattle.std.specs.Prelude.{length, ◌<◌};

use crate::orders::Order;
use net_core::{Atom, MAX_POINTS};

/// Raises the rank of the second point of an order, if it is too low. The highest rank that is given is the number of
/// points that there can be: ranks that fit are below it, if any do.
pub fn raise(ranks: &mut [u32], atom: Atom)
    requires in_range { IsInRange (length ranks.old) atom }
    requires within { AreRanksWithin ranks.old }
    ensures { RisesUntil (λ t. Satisfies t atom) ranks.old ranks.new }
{
    let least = ranks[atom.from as usize] + u32::from(atom.strict);
    if ranks[atom.to as usize] < least && least <= MAX_POINTS {
        ranks[atom.to as usize] = least;
    }
}

/// Raises ranks by each of some orders, from the last back: of the orders of the calendar those of the least numbers come
/// last.
pub fn raise_all(ranks: &mut [u32], atoms: &[Atom])
    requires in_range { AreInRange (length ranks.old) atoms.now }
    requires within { AreRanksWithin ranks.old }
    ensures { RisesUntil (SatisfiesAll atoms.now) ranks.old ranks.new }
{
    let mut rest = atoms;
    while let [before @ .., atom] = rest {
        raise(ranks, *atom);
        rest = before;
    }
}

/// Raises ranks by an order, unless it is of the link that is left out.
fn raise_order(ranks: &mut [u32], order: Order, omitted: u32)
    requires in_range { IsInRange (length ranks.old) order.atom }
    requires within { AreRanksWithin ranks.old }
    ensures { RisesUntil (IsTrueBut omitted order) ranks.old ranks.new }
{
    if !order.is_of(omitted) {
        raise(ranks, order.atom);
    }
}

/// Raises ranks by each order but those of one link, from the first on.
pub fn raise_orders(ranks: &mut [u32], orders: &[Order], omitted: u32)
    requires in_range { spec.AreOrdersBelow (length ranks.old) orders.now }
    requires within { AreRanksWithin ranks.old }
    ensures { RisesUntil (AllAreTrueBut omitted orders.now) ranks.old ranks.new }
{
    for order in orders {
        raise_order(ranks, *order, omitted);
    }
}

/// Raises ranks by each order but those of one link, from the last back. Links may also order points against the steps.
pub fn raise_orders_back(ranks: &mut [u32], orders: &[Order], omitted: u32)
    requires in_range { spec.AreOrdersBelow (length ranks.old) orders.now }
    requires within { AreRanksWithin ranks.old }
    ensures { RisesUntil (AllAreTrueBut omitted orders.now) ranks.old ranks.new }
{
    let mut rest = orders;
    while let [before @ .., order] = rest {
        raise_order(ranks, *order, omitted);
        rest = before;
    }
}

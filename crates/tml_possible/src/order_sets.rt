//! The base relations that two intervals can have, by the orders between them.
ghost use Rattle.std.specs.Prelude.{◌*◌, ◌+◌, ◌<◌, ◌≤◌};
ghost use Rattle.tml_possible.specs.OrderSets.{AreOrderSets, AreSetsBy};
ghost use Rattle.tml_possible.specs.Possible.{CanHold, StartFirst};
ghost use Rattle.tml_possible.specs.Sets.{IsSetOf};

use crate::BaseSet;
use crate::possible_sets::not_denied;
use order_closure::{Closed, MAX_TABLE_POINTS, orders_between};

/// The base relations of which no order is false, as bits, by the orders.
#[derive(Clone, Copy)]
pub struct OrderSets {
    /// By the orders from the first interval to the second.
    forth: [u16; 256],
    /// By those from the second to the first.
    back: [u16; 256],
}

impl OrderSets {
    /// The sets by all orders, each of which is made once.
    pub fn new() -> OrderSets
        ensures { AreOrderSets result }
    {
        OrderSets {
            forth: sets_by(1),
            back: sets_by(256),
        }
    }

    /// What `possible_set` answers, for a table that has each interval start before it ends.
    pub fn possible_set(&self, closed: &Closed, a: u32, b: u32) -> BaseSet
        requires sets { AreOrderSets self.now }
        requires starts { StartFirst closed.now }
        requires a { 2 * a + 1 < closed.now.points }
        requires b { 2 * b + 1 < closed.now.points }
        ensures { IsSetOf (λ r. CanHold closed.now a r b) result }
    {
        prove!(closed.points() <= MAX_TABLE_POINTS);
        let given = orders_between(closed, a, b) as usize;
        BaseSet {
            bits: self.forth[given % 256] & self.back[given / 256 % 256],
        }
    }
}

/// The base relations of which no order is false, as bits, for each eight orders, the first of which has this bit.
fn sets_by(first: u32) -> [u16; 256]
    requires { first ≤ 256 }
    ensures { AreSetsBy first result }
{
    let mut sets = [0; 256];
    for orders in 0..256 {
        sets[orders] = not_denied(first * orders as u32);
    }
    sets
}

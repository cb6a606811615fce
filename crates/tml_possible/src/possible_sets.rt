//! The base relations that two intervals can have, by a table of orders.
ghost use Rattle.net_core.specs.declared.rels.Rel.{Rel as RelOf};
ghost use Rattle.order_closure.specs.Tables.{cell_at};
ghost use Rattle.std.specs.Int.{bit_at};
ghost use Rattle.std.specs.Prelude.{IsTrue, bit_and, slice_index, ℕ, ◌%◌, ◌*◌, ◌+◌, ◌<◌, ◌≡◌, ◌↔◌};
ghost use Rattle.tml_possible.specs.Possible.{CanHold};
ghost use Rattle.tml_possible.specs.Sets.{IsSetOf};

use crate::BaseSet;
use crate::trying::tried;
use order_closure::{Cell, Closed, MAX_TABLE_POINTS, orders_between};

/// For each base relation, in their order, the orders that are false of two intervals which have it, as bits of
/// `orders_between`.
const FALSE_ORDERS: [u32; 13] = [
    0xff00, // BEFORE
    0x00ff, // AFTER
    0x55f0, // INCLUDES
    0xf055, // IS_INCLUDED
    0xd4d4, // SIMULTANEOUS
    0xfd40, // IBEFORE
    0x40fd, // IAFTER
    0xf454, // BEGINS
    0x54f4, // BEGUN_BY
    0xd0d5, // ENDS
    0xd5d0, // ENDED_BY
    0xf550, // OVERLAPS
    0x50f5, // OVERLAPPED_BY
];

/// The base relations that hold between two intervals in some timeline that keeps a table. It takes no memory.
///
/// The cells of their four points say which these are, whatever other points there are. Where the table has both intervals
/// start before they end, as that of a net has, they are those of which no order is false that it gives.
pub fn possible_set(closed: &Closed, a: u32, b: u32) -> BaseSet
    requires even { closed.now.points % 2 ≡ 0 }
    requires a { 2 * a < closed.now.points }
    requires b { 2 * b < closed.now.points }
    ensures { IsSetOf (λ r. CanHold closed.now a r b) result }
{
    prove!(closed.points() <= MAX_TABLE_POINTS);
    let first = starts_first(closed, a);
    let second = starts_first(closed, b);
    if first & second {
        let bits = not_denied(orders_between(closed, a, b));
        BaseSet { bits }
    } else {
        tried(closed, a, b)
    }
}

/// Whether an interval starts before it ends in each timeline that keeps a table.
fn starts_first(closed: &Closed, interval: u32) -> bool
    requires { 2 * interval + 1 < closed.now.points }
    ensures { IsTrue result ↔ (cell_at closed.now (2 * interval) (2 * interval + 1) ≡ Cell.Strict) }
{
    prove!(closed.points() <= MAX_TABLE_POINTS);
    closed.cell(2 * interval, 2 * interval + 1) == Cell::Strict
}

/// The base relations, as bits, of which none of these orders is false.
pub fn not_denied(given: u32) -> u16
    ensures { (k : ℕ) → (bit_at result k ≡ 1) ↔ ((k < 13) × (bit_and given (slice_index FALSE_ORDERS k) ≡ 0)) }
{
    let mut bits = 0;
    for (k, orders) in FALSE_ORDERS.iter().enumerate() {
        if given & orders == 0 {
            bits |= 1 << k;
        }
    }
    bits
}

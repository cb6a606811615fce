//! The orders that a table gives between two intervals, as bits.
ghost use Rattle.net_core.specs.Atoms.{point_in, points_of};
ghost use Rattle.net_core.specs.declared.atom.End.{End as EndOf};
ghost use Rattle.order_closure.specs.Between.{AreGiven, end_number};
ghost use Rattle.order_closure.specs.Bits.{bit_of};
ghost use Rattle.order_closure.specs.Tables.{cell_at};
ghost use Rattle.std.specs.Int.{bit_at};
ghost use Rattle.std.specs.Prelude.{length, ◌*◌, ◌+◌, ◌/◌, ◌<◌, ◌≡◌, ◌≢◌, ◌↔◌};

use crate::{Cell, Closed, MAX_TABLE_POINTS};

/// The orders of a point of the first interval and one of the second that a table gives, as bits, of which those from the
/// first to the second are the lower eight. Of each eight, the lower four are those of the start and the upper four those of
/// the end; of each four, the lower two say that it is no later than the start and the end of the other interval, and the
/// upper two that it is before them.
pub fn orders_between(closed: &Closed, a: u32, b: u32) -> u32
    requires a { 2 * a + 1 < closed.now.points }
    requires b { 2 * b + 1 < closed.now.points }
    ensures { AreGiven closed.now a b result }
{
    256 * one_way(closed, b, a) + one_way(closed, a, b)
}

/// The orders from a point of the first interval to one of the second that a table gives, as the bits of `ANoLater` and
/// `ABefore`.
fn one_way(closed: &Closed, a: u32, b: u32) -> u32
    requires a { 2 * a + 1 < closed.now.points }
    requires b { 2 * b + 1 < closed.now.points }
    ensures small { result < 256 }
    ensures weak { (p q : EndOf) → (bit_at result (4 * end_number p + end_number q) ≡ 1)
        ↔ (cell_at closed.now (point_in (points_of a) p) (point_in (points_of b) q) ≢ Cell.Free) }
    ensures strict { (p q : EndOf) → (bit_at result (4 * end_number p + 2 + end_number q) ≡ 1)
        ↔ (cell_at closed.now (point_in (points_of a) p) (point_in (points_of b) q) ≡ Cell.Strict) }
{
    // so few that the numbers of the points fit
    prove!(closed.points() <= MAX_TABLE_POINTS);
    let weak_start = two_bits(closed.weak_row(2 * a), b);
    let strict_start = two_bits(closed.strict_row(2 * a), b);
    let weak_finish = two_bits(closed.weak_row(2 * a + 1), b);
    let strict_finish = two_bits(closed.strict_row(2 * a + 1), b);
    4 * (4 * (4 * strict_finish + weak_finish) + strict_start) + weak_start
}

/// The bits of the start and of the end of an interval, which are in one word.
fn two_bits(row: &[u64], interval: u32) -> u32
    requires few { interval < 2147483648 }
    requires within { 2 * interval / 64 < length row.now }
    ensures small { result < 4 }
    ensures bits { (q : EndOf) → bit_at result (end_number q) ≡ bit_of row.now (point_in (points_of interval) q) }
{
    let word = row[2 * interval as usize / 64] >> (2 * interval % 64);
    (word & 3) as u32
}

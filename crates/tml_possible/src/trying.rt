//! The base relations that two intervals can have, by trying all orders of their four points.
ghost use Rattle.net_core.specs.Relations.{Holds};
ghost use Rattle.order_closure.specs.Cells.{CellSays};
ghost use Rattle.order_closure.specs.Tables.{cell_at};
ghost use Rattle.std.specs.Prelude.{IsTrue, ◌%◌, ◌*◌, ◌+◌, ◌<◌, ◌≡◌, ◌↔◌};
ghost use Rattle.tml_possible.specs.Possible.{CanHold};
ghost use Rattle.tml_possible.specs.Sets.{AreMore, IsSetOf};
ghost use Rattle.tml_possible.specs.Trying as spec;
ghost use Rattle.tml_possible.specs.Trying.{AreKeptAmong, AreKeptFrom};

use crate::BaseSet;
use named::Named;
use net_core::{Ends, Rel, holds};
use order_closure::{Cell, Closed, MAX_TABLE_POINTS};

/// The base relations that hold between two intervals in some timeline that keeps a table, whose intervals need not start
/// before they end: those that hold of some ranks below 4 which the cells of the four points allow. Four points have no
/// other orders than those of such ranks.
pub fn tried(closed: &Closed, a: u32, b: u32) -> BaseSet
    requires a { 2 * a + 1 < closed.now.points }
    requires b { 2 * b + 1 < closed.now.points }
    ensures { IsSetOf (λ r. CanHold closed.now a r b) result }
{
    prove!(closed.points() <= MAX_TABLE_POINTS);
    let mut set = BaseSet::none();
    for code in 0..256 {
        let (of_a, of_b) = ranks_of(code);
        if are_kept(closed, a, b, of_a, of_b) {
            set = with_holding(set, of_a, of_b);
        }
    }
    set
}

/// Ranks below 4 of two intervals: the digits of a number below 256 in base 4.
fn ranks_of(code: u32) -> (Ends, Ends)
    ensures { result ≡ spec.end_ranks code }
{
    let of_a = Ends {
        start: code % 4,
        finish: code / 4 % 4,
    };
    let of_b = Ends {
        start: code / 16 % 4,
        finish: code / 64 % 4,
    };
    (of_a, of_b)
}

/// Whether the cells of the points of two intervals are true of their ranks.
fn are_kept(closed: &Closed, a: u32, b: u32, of_a: Ends, of_b: Ends) -> bool
    requires a { 2 * a + 1 < closed.now.points }
    requires b { 2 * b + 1 < closed.now.points }
    ensures { IsTrue result ↔ AreKeptAmong closed.now a b of_a of_b }
{
    let first = are_kept_from(closed, a, a, of_a, of_a);
    let forth = are_kept_from(closed, a, b, of_a, of_b);
    let back = are_kept_from(closed, b, a, of_b, of_a);
    let second = are_kept_from(closed, b, b, of_b, of_b);
    first & forth & back & second
}

/// Whether the cells from the points of the first interval to those of the second are true of their ranks.
fn are_kept_from(closed: &Closed, a: u32, b: u32, of_a: Ends, of_b: Ends) -> bool
    requires a { 2 * a + 1 < closed.now.points }
    requires b { 2 * b + 1 < closed.now.points }
    ensures { IsTrue result ↔ AreKeptFrom closed.now a b of_a of_b }
{
    prove!(closed.points() <= MAX_TABLE_POINTS);
    let starts = is_true(closed.cell(2 * a, 2 * b), of_a.start, of_b.start);
    let back = is_true(closed.cell(2 * a, 2 * b + 1), of_a.start, of_b.finish);
    let across = is_true(closed.cell(2 * a + 1, 2 * b), of_a.finish, of_b.start);
    let finishes = is_true(closed.cell(2 * a + 1, 2 * b + 1), of_a.finish, of_b.finish);
    starts & back & across & finishes
}

/// Whether what a cell says is true of the ranks of its points.
fn is_true(cell: Cell, first: u32, second: u32) -> bool
    ensures { IsTrue result ↔ CellSays cell first second }
{
    match cell {
        Cell::Free => true,
        Cell::Weak => first <= second,
        Cell::Strict => first < second,
    }
}

/// A set with the base relations that hold between two intervals as well.
fn with_holding(set: BaseSet, of_a: Ends, of_b: Ends) -> BaseSet
    ensures { AreMore set (λ r. Holds of_a r of_b) result }
{
    let mut more = set;
    for rel in Rel::all() {
        if holds(*rel, of_a, of_b) {
            more = more.with(*rel);
        }
    }
    more
}

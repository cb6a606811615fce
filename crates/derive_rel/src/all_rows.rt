//! All relations that hold in all timelines of a table.
ghost use Rattle.derive_rel.specs.Entailed.{AreRows, IsRow};
ghost use Rattle.derive_rel.specs.Pairs.{mask_for};
ghost use Rattle.derive_rel.specs.Pushing.{ArePutLast, IsAlone, IsFrom, IsRowOf, IsOrder};
ghost use Rattle.net_core.specs.Rels.{all_rels};
ghost use Rattle.order_closure.specs.Tables.{max_table_points};
ghost use Rattle.std.specs.Prelude.{IfOk, OnOk, map, ◌%◌, ◌*◌, ◌+◌, ◌<◌, ◌≡◌, ◌≤◌};

use crate::pairs::{Mask, masks};
use crate::ways::gives_some;
use net_core::{List, Memory, Rel};
use order_closure::{Closed, MAX_TABLE_POINTS, orders_between};
use std::alloc::Global;

/// A relation between two intervals, by their numbers.
#[derive(Clone, Copy)]
pub struct Row {
    pub a: u32,
    pub rel: Rel,
    pub b: u32,
}

/// The relations that hold between any two intervals in all timelines that keep a table: those of an interval and each
/// one after it, in the order of the intervals and then of the table of relations.
///
/// # Errors
///
/// Out of memory.
pub fn rows(alloc: Global, closed: &Closed) -> Result<List<Row>, Memory>
    requires { closed.now.points % 2 ≡ 0 }
    ensures { IfOk result (AreRows closed.now) }
{
    let masks = masks(alloc)?;
    let mut rows = List::new(alloc);
    for a in 0..closed.points() / 2 {
        push_from(&mut rows, closed, &masks, a)?;
    }
    Ok(rows)
}

/// Appends the relations of an interval and each one after it.
fn push_from(rows: &mut List<Row>, closed: &Closed, masks: &[Mask], a: u32) -> Result<(), Memory>
    requires few { closed.now.points ≤ max_table_points }
    requires a { 2 * a + 1 < closed.now.points }
    requires masks { masks.now ≡ map mask_for all_rels }
    ensures { OnOk result (ArePutLast (IsRow closed.now) (IsFrom a) rows.old rows.new) }
{
    for b in a + 1..closed.points() / 2 {
        push_pair(rows, closed, masks, a, b)?;
    }
    Ok(())
}

/// Appends the relations of two intervals. Where the table orders their points one way alone, only BEFORE or only AFTER
/// can be one: so it is for most intervals of most documents.
fn push_pair(
    rows: &mut List<Row>,
    closed: &Closed,
    masks: &[Mask],
    a: u32,
    b: u32,
) -> Result<(), Memory>
    requires a { a < b }
    requires b { 2 * b + 1 < closed.now.points }
    requires masks { masks.now ≡ map mask_for all_rels }
    ensures { OnOk result (ArePutLast (IsRow closed.now) (IsRowOf a b) rows.old rows.new) }
{
    // so few that the numbers of the points fit
    prove!(closed.points() <= MAX_TABLE_POINTS);
    if !gives_some(closed, b, a) {
        let rel = Rel::Before;
        return push_alone(rows, closed, Row { a, rel, b }, 2 * a + 1, 2 * b);
    }
    if !gives_some(closed, a, b) {
        let rel = Rel::After;
        return push_alone(rows, closed, Row { a, rel, b }, 2 * b + 1, 2 * a);
    }
    push_all(rows, closed, masks, a, b)
}

/// Appends a row, where the first of two points is before the second: that is its relation, and no other one can hold
/// between its intervals.
fn push_alone(
    rows: &mut List<Row>,
    closed: &Closed,
    row: Row,
    from: u32,
    to: u32,
) -> Result<(), Memory>
    requires a { row.a < row.b }
    requires b { 2 * row.b + 1 < closed.now.points }
    requires from { from < closed.now.points }
    requires to { to < closed.now.points }
    requires alone { IsAlone closed.now row }
    requires order { IsOrder closed.now row from to }
    ensures { OnOk result (ArePutLast (IsRow closed.now) (IsRowOf row.a row.b) rows.old rows.new) }
{
    if closed.cell(from, to).gives(true) {
        return rows.push(row);
    }
    Ok(())
}

/// Appends the relations of two intervals, each all of whose orders the table gives.
fn push_all(
    rows: &mut List<Row>,
    closed: &Closed,
    masks: &[Mask],
    a: u32,
    b: u32,
) -> Result<(), Memory>
    requires a { a < b }
    requires b { 2 * b + 1 < closed.now.points }
    requires masks { masks.now ≡ map mask_for all_rels }
    ensures { OnOk result (ArePutLast (IsRow closed.now) (IsRowOf a b) rows.old rows.new) }
{
    let given = orders_between(closed, a, b);
    for mask in masks {
        if mask.is_in(given) {
            let rel = mask.rel;
            rows.push(Row { a, rel, b })?;
        }
    }
    Ok(())
}

//! An order of points in which few rounds of relaxation are needed.
ghost use Rattle.seconds_search.specs.Leaving.{AreLeaving, ArePoints, IsEdgeNumber, IsVisit};
ghost use Rattle.std.specs.List.{All};
ghost use Rattle.std.specs.Prelude.{IfOk, OnOk, length, ◌^◌, ◌<◌, ◌≡◌};

use crate::edges::Edge;
use crate::leaving::Leaving;
use net_core::Memory;
use seconds_core::Line;
use std::alloc::Global;

/// Points, mostly in an order in which each span and link leads from a point to one that comes earlier, so that a round from
/// the last point on carries distances along whole chains. It is found by a search along spans and links, depth first.
///
/// # Errors
///
/// Out of memory.
pub fn order_of(
    alloc: Global,
    edges: &[Edge],
    leaving: &Leaving,
    points: u32,
) -> Result<Vec<u32>, Memory>
    requires leaving { AreLeaving points edges.now leaving.now }
    requires few { length edges.now < 2 ^ 32 }
    ensures { IfOk result (λ order. ArePoints points order.items) }
{
    let mut seen = vec![in alloc; false; points as usize]?;
    let mut path = Vec::new(alloc);
    let mut order = Vec::new(alloc);
    for point in 0..points {
        enter(leaving, point, &mut seen, &mut path)?;
        descend(edges, leaving, &mut seen, &mut path, &mut order)?;
    }
    Ok(order)
}

/// A point that the search entered, and the edge by which it leaves it next.
#[derive(Clone, Copy)]
struct Visit {
    point: u32,
    next: Option<usize>,
}

/// Enters a point, unless it was entered.
fn enter(
    leaving: &Leaving,
    point: u32,
    seen: &mut [bool],
    path: &mut Vec<Visit>,
) -> Result<(), Memory>
    requires last { All (IsEdgeNumber (length leaving.now.before.items)) leaving.now.last.items }
    requires seen { length seen.old ≡ length leaving.now.last.items }
    requires point { point < length seen.old }
    requires path { All (IsVisit (length seen.old) (length leaving.now.before.items)) path.old.items }
    ensures seen { length seen.new ≡ length seen.old }
    ensures path { OnOk result (All (IsVisit (length seen.old) (length leaving.now.before.items)) path.new.items) }
{
    if seen[point as usize] {
        return Ok(());
    }
    seen[point as usize] = true;
    let next = leaving.last[point as usize];
    path.push(Visit { point, next })?;
    Ok(())
}

/// Follows edges to points that were not entered, and back where a point has no more: it is then appended to the order. A
/// step leaves a point by an edge, or for good: so there are no more steps than points and edges.
fn descend(
    edges: &[Edge],
    leaving: &Leaving,
    seen: &mut [bool],
    path: &mut Vec<Visit>,
    order: &mut Vec<u32>,
) -> Result<(), Memory>
    requires leaving { AreLeaving (length seen.old) edges.now leaving.now }
    requires few { length edges.now < 2 ^ 32 }
    requires path { All (IsVisit (length seen.old) (length leaving.now.before.items)) path.old.items }
    requires order { ArePoints (length seen.old) order.old.items }
    ensures seen { length seen.new ≡ length seen.old }
    ensures path { OnOk result (All (IsVisit (length seen.old) (length leaving.now.before.items)) path.new.items) }
    ensures order { OnOk result (ArePoints (length seen.old) order.new.items) }
{
    let most = leaving.last.len() + edges.len();
    'descent: for _ in 0..most {
        let Some(visit) = path.pop() else {
            return Ok(());
        };
        match visit.next {
            Some(number) => follow(edges, leaving, visit.point, number, seen, path)?,
            None => order.push(visit.point)?,
        }
    }
    Ok(())
}

/// Follows an edge from a point that the search stays in, if it is one of a span or a link.
fn follow(
    edges: &[Edge],
    leaving: &Leaving,
    point: u32,
    number: usize,
    seen: &mut [bool],
    path: &mut Vec<Visit>,
) -> Result<(), Memory>
    requires leaving { AreLeaving (length seen.old) edges.now leaving.now }
    requires point { point < length seen.old }
    requires number { number < length edges.now }
    requires path { All (IsVisit (length seen.old) (length leaving.now.before.items)) path.old.items }
    ensures seen { length seen.new ≡ length seen.old }
    ensures path { OnOk result (All (IsVisit (length seen.old) (length leaving.now.before.items)) path.new.items) }
{
    let next = leaving.before[number];
    path.push(Visit { point, next })?;
    let edge = edges[number];
    match edge.line {
        Line::Span { .. } | Line::Via { .. } => enter(leaving, edge.constraint.to, seen, path),
        Line::Lower { .. } | Line::Upper { .. } | Line::Least { .. } | Line::Most { .. } => Ok(()),
    }
}

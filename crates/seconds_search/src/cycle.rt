//! The negative cycle that predecessors lead back round.
ghost use Rattle.std.specs.Prelude.{IfOk, IfSome, IsSome, MatchOption, drop, length, map, ℕ, ◌<◌, ◌≡◌, ◌≤◌};
ghost use Rattle.std.specs.List.{All};
ghost use Rattle.seconds_search.specs.Relaxation.{AreNegative, IsClosedTrail, IsRelaxed, IsTooLow, constraint_at};
ghost use Rattle.seconds_search.specs.Edges.{edge_line};

use crate::edges::Edge;
use crate::relaxation::Distances;
use net_core::Memory;
use seconds_core::{Cycle, Line};
use std::alloc::Global;

/// A cycle of edges whose sum is below 0, where predecessors lead back to one from this point. Where the point is too low
/// they do.
///
/// # Errors
///
/// Out of memory.
pub fn negative_cycle(
    alloc: Global,
    edges: &[Edge],
    distances: &Distances,
    point: u32,
) -> Result<Option<Cycle>, Memory>
    requires relaxed { IsRelaxed edges.now distances.now }
    requires point { point < length distances.now.seconds }
    ensures negative { IfOk result (λ found. IfSome found (AreNegative edges.now)) }
    ensures short { IfOk result (λ found. IfSome found (λ cycle. length cycle ≤ length distances.now.seconds)) }
    ensures found { IfOk result (λ found. IsTooLow distances.now.seconds point → IsSome found) }
{
    let Some(trail) = closed_trail(alloc, edges, distances, point)? else {
        return Ok(None);
    };
    let mut lines = lines_of(alloc, edges, &trail)?;
    lines.reverse();
    Ok(Some(Cycle::from_vec(lines)))
}

/// The edges that predecessors lead back by from a point that they lead back to again, if they come to one from here.
fn closed_trail(
    alloc: Global,
    edges: &[Edge],
    distances: &Distances,
    from: u32,
) -> Result<Option<Vec<usize>>, Memory>
    requires relaxed { IsRelaxed edges.now distances.now }
    requires from { from < length distances.now.seconds }
    ensures { IfOk result (λ found. MatchOption found (IsTooLow distances.now.seconds from → ⊥) (λ trail. (p : ℕ) × IsClosedTrail edges.now distances.now trail.items p)) }
{
    let mut trail = Vec::new(alloc);
    let mut places = vec![in alloc; None; distances.len()]?;
    let mut point = from;
    while let Some(number) = distances.predecessor(point) {
        if let Some(first) = places[point as usize] {
            let rest = rest_of(alloc, &trail, first)?;
            return Ok(Some(rest));
        }
        places[point as usize] = Some(trail.len());
        trail.push(number)?;
        point = from_of(edges, number);
    }
    Ok(None)
}

/// The point that an edge leads from.
fn from_of(edges: &[Edge], number: usize) -> u32
    requires { number < length edges.now }
    ensures { result ≡ (constraint_at edges.now number).from }
{
    edges[number].constraint.from
}

/// The numbers from this place on.
fn rest_of(alloc: Global, numbers: &[usize], first: usize) -> Result<Vec<usize>, Memory>
    requires { first ≤ length numbers.now }
    ensures { IfOk result (λ rest. rest.items ≡ drop first numbers.now) }
{
    Ok(Vec::from_slice(alloc, &numbers[first..])?)
}

/// The lines of edges.
fn lines_of(alloc: Global, edges: &[Edge], numbers: &[usize]) -> Result<Vec<Line>, Memory>
    requires { All (λ e. e < length edges.now) numbers.now }
    ensures { IfOk result (λ lines. lines.items ≡ map (edge_line edges.now) numbers.now) }
{
    let mut lines = Vec::new(alloc);
    for number in numbers {
        lines.push(edges[*number].line)?;
    }
    Ok(lines)
}

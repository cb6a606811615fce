//! A walk from one point to another, by a search over states, breadth first.
ghost use Rattle.net_core.specs.Nets.{points};
ghost use Rattle.net_core.specs.Walks.{HasWalk, IsWalk, Kept};
ghost use Rattle.std.specs.Prelude.{IfNone, IfOk, IfSome, [], false, length, ◌*◌, ◌<◌, ◌≡◌, ◌≤◌};
ghost use Rattle.walks.specs.Graphs.{IsGraph};
ghost use Rattle.walks.specs.Search.{IsSearched};

use crate::graph::Graph;
use crate::states::{Entry, States};
use net_core::{Memory, Net, Walk};
use std::alloc::Global;

/// A walk from one point to another, with a strict step where that is asked for, over spans, the calendar and the links
/// that are kept. It has at most twice as many steps as there are points. From a point to itself, where no strict step
/// is asked for, it is empty. None comes exactly where there is no such walk.
///
/// It takes time near linear in the number of steps that there are: the spans, the orders of the links that are kept,
/// and the pairs of points that the calendar orders.
///
/// # Errors
///
/// Out of memory.
pub fn walk(
    alloc: Global,
    net: &Net,
    keep: &[bool],
    from: u32,
    to: u32,
    strict: bool,
) -> Result<Option<Walk>, Memory>
    requires keep { length keep.now ≡ length net.now.links }
    requires from { from < points net.now }
    requires to { to < points net.now }
    ensures some { IfOk result (λ found. IfSome found (λ steps. IsWalk net.now (Kept keep.now) from to strict steps
        × (length steps ≤ 2 * points net.now))) }
    ensures none { IfOk result (λ found. IfNone found (HasWalk net.now (Kept keep.now) from to strict → ⊥)) }
    ensures empty { from ≡ to → strict ≡ false → IfOk result (λ found. found ≡ Some []) }
{
    let graph = Graph::new(alloc, net, keep)?;
    let states = search(alloc, net, &graph, from, to, strict)?;
    match states.find(to, strict) {
        Some(last) => Ok(Some(states.trace(alloc, last)?)),
        None => Ok(None),
    }
}

/// Visits the states that steps lead to from a point, until a point is visited, after a strict step where that is asked
/// for, or all are.
fn search(
    alloc: Global,
    net: &Net,
    graph: &Graph,
    from: u32,
    to: u32,
    strict: bool,
) -> Result<States, Memory>
    requires graph { IsGraph net.now graph.now }
    requires from { from < points net.now }
    requires to { to < points net.now }
    ensures { IfOk result (IsSearched net.now graph.now from to strict) }
{
    let mut states = States::new(alloc, 2 * net.intervals())?;
    states.visit(Entry {
        point: from,
        strict: false,
        arrival: None,
    })?;
    let mut head = 0;
    while head < states.len() && !states.has_end(to, strict) {
        graph.expand(net, &mut states, head)?;
        head += 1;
    }
    Ok(states)
}

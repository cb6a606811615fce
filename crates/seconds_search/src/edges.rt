//! All constraints between the points of a net, each with the line that names it.
ghost use Rattle.net_core.specs.Nets.{intervals, points};
ghost use Rattle.seconds_core.specs.Timed.{IsTimed};
ghost use Rattle.std.specs.Prelude.{IfOk, OnOk, length, ℕ, ◌+◌, ◌*◌, ◌<◌, ◌≡◌, ◌≤◌};
ghost use Rattle.seconds_search.specs.Edges as spec;
ghost use Rattle.seconds_search.specs.Edges.{AreConstraintEdges, CoversAll, EdgesGrow, IsOfInterval, IsLineOfLink, IsOfPoint};

use net_core::Memory;
use seconds_core::{Constraint, Line, Timed, constraint_of};
use std::alloc::Global;

/// A constraint, with the line that names it.
#[derive(Clone, Copy)]
pub struct Edge {
    pub line: Line,
    pub constraint: Constraint,
}

/// The edges of a net: those of intervals, of points and of links.
///
/// # Errors
///
/// Out of memory.
pub fn edges_of(alloc: Global, timed: &Timed) -> Result<Vec<Edge>, Memory>
    requires { IsTimed timed.now }
    ensures edges { IfOk result (λ edges. AreConstraintEdges timed.now edges.items) }
    ensures few { IfOk result (λ edges. length edges.items < 65536) }
{
    let mut edges = Vec::new(alloc);
    push_intervals(&mut edges, timed)?;
    push_points(&mut edges, timed)?;
    push_links(&mut edges, timed)?;
    Ok(edges)
}

fn push_intervals(edges: &mut Vec<Edge>, timed: &Timed) -> Result<(), Memory>
    ensures grows { OnOk result (EdgesGrow timed.now edges.old.items edges.new.items (3 * intervals timed.now.net)) }
    ensures covers { OnOk result ((i : ℕ) → i < intervals timed.now.net → CoversAll timed.now edges.new.items (IsOfInterval i)) }
{
    for interval in 0..timed.net().intervals() {
        push_interval(edges, timed, interval)?;
    }
    Ok(())
}

fn push_points(edges: &mut Vec<Edge>, timed: &Timed) -> Result<(), Memory>
    ensures grows { OnOk result (EdgesGrow timed.now edges.old.items edges.new.items (2 * points timed.now.net)) }
    ensures covers { OnOk result ((p : ℕ) → p < points timed.now.net → CoversAll timed.now edges.new.items (IsOfPoint p)) }
{
    for point in 0..timed.origin() {
        push_point(edges, timed, point)?;
    }
    Ok(())
}

fn push_links(edges: &mut Vec<Edge>, timed: &Timed) -> Result<(), Memory>
    ensures grows { OnOk result (EdgesGrow timed.now edges.old.items edges.new.items (4 * length timed.now.net.links)) }
    ensures covers { OnOk result ((k : ℕ) → k < length timed.now.net.links → CoversAll timed.now edges.new.items (IsLineOfLink k)) }
{
    for link in 0..timed.net().links() {
        push_link(edges, timed, link)?;
    }
    Ok(())
}

fn push_interval(edges: &mut Vec<Edge>, timed: &Timed, interval: u32) -> Result<(), Memory>
    ensures grows { OnOk result (EdgesGrow timed.now edges.old.items edges.new.items 3) }
    ensures covers { OnOk result (CoversAll timed.now edges.new.items (IsOfInterval interval)) }
{
    push_line(edges, timed, Line::Span { interval })?;
    push_line(edges, timed, Line::Least { interval })?;
    push_line(edges, timed, Line::Most { interval })?;
    Ok(())
}

fn push_point(edges: &mut Vec<Edge>, timed: &Timed, point: u32) -> Result<(), Memory>
    ensures grows { OnOk result (EdgesGrow timed.now edges.old.items edges.new.items 2) }
    ensures covers { OnOk result (CoversAll timed.now edges.new.items (IsOfPoint point)) }
{
    push_line(edges, timed, Line::Lower { point })?;
    push_line(edges, timed, Line::Upper { point })?;
    Ok(())
}

fn push_link(edges: &mut Vec<Edge>, timed: &Timed, link: u32) -> Result<(), Memory>
    ensures grows { OnOk result (EdgesGrow timed.now edges.old.items edges.new.items 4) }
    ensures covers { OnOk result (CoversAll timed.now edges.new.items (IsLineOfLink link)) }
{
    push_line(edges, timed, Line::Via { link, atom: 0 })?;
    push_line(edges, timed, Line::Via { link, atom: 1 })?;
    push_line(edges, timed, Line::Via { link, atom: 2 })?;
    push_line(edges, timed, Line::Via { link, atom: 3 })?;
    Ok(())
}

/// Appends the edge of a line, where it names a constraint.
fn push_line(edges: &mut Vec<Edge>, timed: &Timed, line: Line) -> Result<(), Memory>
    ensures grows { OnOk result (EdgesGrow timed.now edges.old.items edges.new.items 1) }
    ensures covers { OnOk result (spec.Covers timed.now edges.new.items line) }
{
    let Some(constraint) = constraint_of(timed, line) else {
        return Ok(());
    };
    edges.push(Edge { line, constraint })?;
    Ok(())
}

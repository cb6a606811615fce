//! The steps that leave each point.
ghost use Rattle.net_core.specs.Walks.{Kept};
ghost use Rattle.std.specs.Prelude.{IfOk, OnOk, length, ◌<◌, ◌≡◌};
ghost use Rattle.walks.specs.Edges.{AddsEdges, AreEdges, AreEdgesFrom, AreEdgesSorted, IsOver, IsSpan};

use net_core::{Atom, Memory, Net, Step, step_atom};
use std::alloc::Global;

/// A step from one point to another, and the order that it goes by.
#[derive(Clone, Copy)]
pub struct Edge {
    pub step: Step,
    pub atom: Atom,
}

/// The steps over spans and the links that are kept, those that leave the lowest point first. The steps of the calendar
/// are not among them.
pub fn edges_of(alloc: Global, net: &Net, keep: &[bool]) -> Result<Vec<Edge>, Memory>
    requires { length keep.now ≡ length net.now.links }
    ensures edges { IfOk result (λ edges. AreEdges net.now keep.now edges.items) }
    ensures sorted { IfOk result (λ edges. AreEdgesSorted edges.items) }
{
    let mut edges = Vec::new(alloc);
    push_spans(&mut edges, net)?;
    push_links(&mut edges, net, keep)?;
    edges.sort_unstable_by_key(|edge| edge.atom.from);
    Ok(edges)
}

/// Appends the step over each span.
fn push_spans(edges: &mut Vec<Edge>, net: &Net) -> Result<(), Memory>
    ensures { OnOk result (AddsEdges net.now IsSpan edges.old.items edges.new.items) }
{
    for interval in 0..net.intervals() {
        push_step(edges, net, Step::Span { interval })?;
    }
    Ok(())
}

/// Appends the steps over each link that is kept.
fn push_links(edges: &mut Vec<Edge>, net: &Net, keep: &[bool]) -> Result<(), Memory>
    requires { length keep.now ≡ length net.now.links }
    ensures { OnOk result (AddsEdges net.now (IsOver (Kept keep.now)) edges.old.items edges.new.items) }
{
    for link in 0..net.links() {
        if keep[link as usize] {
            push_link(edges, net, link)?;
        }
    }
    Ok(())
}

/// Appends the steps over a link.
fn push_link(edges: &mut Vec<Edge>, net: &Net, link: u32) -> Result<(), Memory>
    requires { link < length net.now.links }
    ensures { OnOk result (AddsEdges net.now (IsOver (λ k. k ≡ link)) edges.old.items edges.new.items) }
{
    let count = net.link(link).rel.atom_count();
    for atom in 0..count {
        push_step(edges, net, Step::Link { link, atom })?;
    }
    Ok(())
}

/// Appends a step, where it goes by an order.
fn push_step(edges: &mut Vec<Edge>, net: &Net, step: Step) -> Result<(), Memory>
    ensures { OnOk result (AddsEdges net.now (λ s. s ≡ step) edges.old.items edges.new.items) }
{
    if let Some(atom) = step_atom(net, &step) {
        edges.push(Edge { step, atom })?;
    }
    Ok(())
}

/// The edges that leave a point.
pub fn edges_from(edges: &[Edge], point: u32) -> &[Edge]
    requires { AreEdgesSorted edges.now }
    ensures { AreEdgesFrom point edges.now result.now }
{
    let first = edges.partition_point(|edge| edge.atom.from < point);
    let rest = &edges[first..];
    let count = rest.partition_point(|edge| edge.atom.from <= point);
    &rest[..count]
}

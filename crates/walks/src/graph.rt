//! The steps that a walk may take.
ghost use Rattle.std.specs.Prelude.{IfOk, OnOk, length, ◌<◌, ◌≡◌};
ghost use Rattle.std.specs.List.{All, Contains};
ghost use Rattle.net_core.specs.Nets.{IsNet, points};
ghost use Rattle.walks.specs.Dates.{AreDatesBelow};
ghost use Rattle.walks.specs.Edges.{AreEdges};
ghost use Rattle.walks.specs.Graphs as spec;
ghost use Rattle.walks.specs.Graphs.{AreEdgesLeaving, IsCalendarWay, IsDateEdge, IsGraph, IsWay};
ghost use Rattle.walks.specs.States.{StatesGrow, IsExpanded, IsReached, entry_at};

use crate::dates::{Date, dates_from, lowers_of};
use crate::edges::{Edge, edges_from, edges_of};
use crate::states::States;
use net_core::{Atom, Memory, Net, Step};
use std::alloc::Global;

/// The steps of a net that a walk may take. Those over spans and links are listed, by the points that they leave. Those
/// of the calendar are not, since any two points may have one: there is a date for each point that they lead to.
#[derive(Drop)]
pub struct Graph {
    pub edges: Vec<Edge>,
    pub lowers: Vec<Date>,
}

impl Graph {
    /// The steps of a net, over the links that are kept.
    pub fn new(alloc: Global, net: &Net, keep: &[bool]) -> Result<Graph, Memory>
        requires { length keep.now ≡ length net.now.links }
        ensures graph { IfOk result (IsGraph net.now) }
        ensures edges { IfOk result (λ graph. AreEdges net.now keep.now graph.edges.items) }
    {
        let edges = edges_of(alloc, net, keep)?;
        let lowers = lowers_of(alloc, net)?;
        Ok(Graph { edges, lowers })
    }

    /// Visits the states that steps lead to from the entry of this number.
    pub fn expand(&self, net: &Net, states: &mut States, head: usize) -> Result<(), Memory>
        requires graph { IsGraph net.now self.now }
        requires net { IsNet net.now }
        requires points { states.old.points ≡ points net.now }
        requires head { head < length states.old.entries }
        ensures grown { OnOk result (StatesGrow (IsWay net.now self.now) head states.old states.new) }
        ensures expanded { OnOk result (IsExpanded (IsWay net.now self.now) states.new.entries head) }
    {
        self.follow_listed(net, states, head)?;
        self.follow_calendar(net, states, head)?;
        Ok(())
    }

    /// Visits the states that steps over spans and links lead to from the entry of this number.
    fn follow_listed(&self, net: &Net, states: &mut States, head: usize) -> Result<(), Memory>
        requires graph { IsGraph net.now self.now }
        requires net { IsNet net.now }
        requires points { states.old.points ≡ points net.now }
        requires head { head < length states.old.entries }
        ensures grown { OnOk result (StatesGrow (Contains self.now.edges.items) head states.old states.new) }
        ensures expanded { OnOk result (IsExpanded (Contains self.now.edges.items) states.new.entries head) }
    {
        let point = states.entry(head).point;
        follow_edges(states, head, edges_from(&self.edges, point))?;
        Ok(())
    }

    /// Visits the states that steps of the calendar lead to from the entry of this number.
    fn follow_calendar(&self, net: &Net, states: &mut States, head: usize) -> Result<(), Memory>
        requires graph { IsGraph net.now self.now }
        requires net { IsNet net.now }
        requires points { states.old.points ≡ points net.now }
        requires head { head < length states.old.entries }
        ensures grown { OnOk result (StatesGrow (IsCalendarWay net.now) head states.old states.new) }
        ensures expanded { OnOk result (IsExpanded (IsCalendarWay net.now) states.new.entries head) }
    {
        let point = states.entry(head).point;
        let Some(number) = net.upper(point) else {
            return Ok(());
        };
        let upper = Date { number, point };
        follow_dates(states, head, upper, dates_from(&self.lowers, number))?;
        Ok(())
    }
}

/// Visits the states that edges lead to from the entry of this number.
fn follow_edges(states: &mut States, head: usize, edges: &[Edge]) -> Result<(), Memory>
    requires head { head < length states.old.entries }
    requires leaving { AreEdgesLeaving (entry_at states.old.entries head).point states.old.points edges.now }
    ensures grown { OnOk result (StatesGrow (Contains edges.now) head states.old states.new) }
    ensures reached { OnOk result (All (IsReached states.new.entries head) edges.now) }
{
    for edge in edges {
        states.follow(head, *edge)?;
    }
    Ok(())
}

/// Visits the states that steps of the calendar lead to from the entry of this number, whose point has an upper number,
/// to points with lower numbers.
fn follow_dates(
    states: &mut States,
    head: usize,
    upper: Date,
    lowers: &[Date],
) -> Result<(), Memory>
    requires head { head < length states.old.entries }
    requires upper { upper.point ≡ (entry_at states.old.entries head).point }
    requires lowers { AreDatesBelow states.old.points lowers.now }
    ensures grown { OnOk result (StatesGrow (IsDateEdge upper lowers.now) head states.old states.new) }
    ensures reached { OnOk result (All (λ lower. IsReached states.new.entries head (spec.date_edge upper lower))
        lowers.now) }
{
    for lower in lowers {
        states.follow(head, date_edge(upper, *lower))?;
    }
    Ok(())
}

/// The step of the calendar from a point with an upper number to one with a lower number, which is not below it.
fn date_edge(upper: Date, lower: Date) -> Edge
    ensures { result ≡ spec.date_edge upper lower }
{
    Edge {
        step: Step::Calendar {
            from: upper.point,
            to: lower.point,
        },
        atom: Atom {
            from: upper.point,
            to: lower.point,
            strict: upper.number < lower.number,
        },
    }
}

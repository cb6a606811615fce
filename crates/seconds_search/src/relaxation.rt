//! Bellman-Ford relaxation: a distance for each point, which edges lower until all are met.
ghost use Rattle.seconds_core.specs.Placed.{second_at};
ghost use Rattle.seconds_core.specs.Timed.{max_second};
ghost use Rattle.std.specs.List.{All};
ghost use Rattle.std.specs.Prelude.{IfOk, None as NoEdge, length, neg_ℤ, pos, replicate, set, ◌+ℤ◌, ◌<◌, ◌≡◌, ◌≤◌, ◌≤ℤ◌};
ghost use Rattle.seconds_search.specs.Relaxation as spec;
ghost use Rattle.seconds_search.specs.Relaxation.{IsNear, IsRelaxed, Relaxes, RelaxesAll};

use crate::edges::Edge;
use net_core::{MAX_POINTS, Memory};
use seconds_core::Constraint;
use std::alloc::Global;
use std::marker::Model;

/// No distance is lower: that of as many of the heaviest edges as there can be points.
const LOWEST: i64 = -(MAX_POINTS as i64 + 1) * 1_000_000_000_000_000;

/// The distance of each point from a source with an edge of weight 0 to all of them, as far as it is known, and the number
/// of the edge by which it was lowered last, if any.
#[derive(Drop)]
pub struct Distances {
    seconds: Vec<i64>,
    predecessors: Vec<Option<usize>>,
}

/// What the relaxation of an edge did.
pub enum Relaxed {
    /// The edge is met.
    Met,
    /// The distance of the point that it leads to was lowered, so that it is met.
    Lowered,
    /// Nothing: that distance would be too low to be stored, which only a negative cycle can bring about.
    TooLow,
}

impl Model for Distances {
    ghost use Rattle.seconds_search.specs.Relaxation.{PlainDistances};

    ghost Value = { PlainDistances };

    ghost view = { λ a. record { seconds = a.seconds.items; predecessors = a.predecessors.items } };
}

impl Distances {
    /// All points at distance 0, lowered by no edge.
    ///
    /// # Errors
    ///
    /// Out of memory.
    pub fn new(alloc: Global, points: u32) -> Result<Distances, Memory>
        ensures { IfOk result (λ distances. distances ≡ record { seconds = replicate points (pos 0); predecessors = replicate points NoEdge }) }
    {
        let seconds = vec![in alloc; 0i64; points as usize]?;
        let predecessors = vec![in alloc; None; points as usize]?;
        Ok(Distances {
            seconds,
            predecessors,
        })
    }

    /// The number of the edge by which a point was lowered last, if any.
    pub fn predecessor(&self, point: u32) -> Option<usize>
        requires { point < length self.now.predecessors }
        ensures { result ≡ spec.predecessor self.now.predecessors point }
    {
        self.predecessors[point as usize]
    }

    /// How many points there are.
    pub fn len(&self) -> usize
        ensures { result ≡ length self.now.predecessors }
    {
        self.predecessors.len()
    }

    /// The distances.
    pub fn into_seconds(self) -> Vec<i64>
        ensures { result.items ≡ self.seconds }
    {
        self.seconds
    }

    /// Relaxes each edge once. Answers None where all are met already, and else a point from which predecessors may lead back
    /// to a negative cycle: the last one that was lowered, or one from which an edge leads too low.
    pub fn relax_all(&mut self, edges: &[Edge]) -> Option<u32>
        requires { IsRelaxed edges.now self.old }
        ensures relaxed { IsRelaxed edges.now self.new }
        ensures size { length self.new.seconds ≡ length self.old.seconds }
        ensures all { RelaxesAll edges.now self.old self.new result }
    {
        let mut lowered = None;
        for number in 0..edges.len() {
            match self.relax(edges, number) {
                Relaxed::Met => {}
                Relaxed::Lowered => lowered = Some(edges[number].constraint.to),
                Relaxed::TooLow => return Some(edges[number].constraint.from),
            }
        }
        lowered
    }

    /// Relaxes an edge: where the point that it leads to is further than the edge allows, its distance is lowered.
    pub fn relax(&mut self, edges: &[Edge], number: usize) -> Relaxed
        requires number { number < length edges.now }
        requires relaxed { IsRelaxed edges.now self.old }
        ensures relaxed { IsRelaxed edges.now self.new }
        ensures size { length self.new.seconds ≡ length self.old.seconds }
        ensures done { Relaxes edges.now number self.old self.new result }
    {
        let constraint = edges[number].constraint;
        let second = self.led_to(constraint);
        if self.seconds[constraint.to as usize] <= second {
            return Relaxed::Met;
        }
        if second < LOWEST {
            return Relaxed::TooLow;
        }
        self.lower(constraint.to, second, number);
        Relaxed::Lowered
    }

    /// The distance at which the point that a constraint leads to meets it.
    fn led_to(&self, constraint: Constraint) -> i64
        requires from { constraint.from < length self.now.seconds }
        requires low { neg_ℤ (pos max_second) ≤ℤ constraint.weight }
        requires high { constraint.weight ≤ℤ pos max_second }
        requires near { All IsNear self.now.seconds }
        ensures { result ≡ second_at self.now.seconds constraint.from +ℤ constraint.weight }
    {
        self.seconds[constraint.from as usize] + constraint.weight
    }

    /// Lowers the distance of a point, by an edge.
    fn lower(&mut self, point: u32, second: i64, number: usize)
        requires point { point < length self.old.seconds }
        requires size { length self.old.predecessors ≡ length self.old.seconds }
        ensures seconds { self.new.seconds ≡ set self.old.seconds point second }
        ensures predecessors { self.new.predecessors ≡ set self.old.predecessors point (Some number) }
    {
        self.seconds[point as usize] = second;
        self.predecessors[point as usize] = Some(number);
    }
}

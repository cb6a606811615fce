//! Rounds of relaxation, in which few edges are relaxed in vain.
ghost use Rattle.seconds_search.specs.Edges.{AreInside};
ghost use Rattle.seconds_search.specs.Relaxation.{IsRelaxed, RelaxesAll, total};
ghost use Rattle.seconds_search.specs.Rounds.{AreRounds, GoOn, Lowers};
ghost use Rattle.std.specs.Prelude.{IfOk, OnOk, length, ◌+◌, ◌^◌, ◌<◌, ◌≡◌, ◌≤◌};

use crate::edges::Edge;
use crate::leaving::Leaving;
use crate::ordering::order_of;
use crate::relaxation::{Distances, Relaxed};
use net_core::Memory;
use std::alloc::Global;

/// How often a point is taken in a round at most. More would follow some chains in fewer rounds, but a round could take as
/// many times as long.
const TURNS: u8 = 2;

/// Rounds over the points, from the last one of the order on. A point is taken, and the edges that leave it are relaxed, only where it was lowered
/// since it was taken last; and where this lowers points that the round has come to, these are taken again at once: so
/// that one round also carries distances along chains that lead the other way.
#[derive(Drop)]
pub struct Rounds {
    leaving: Leaving,
    order: Vec<u32>,
    /// Whether each point was lowered since it was taken last.
    is_due: Vec<bool>,
    /// How often each point may still be taken in this round: 0 where the round has not come to it.
    turns: Vec<u8>,
    /// The points that are to be taken at once, the next one last.
    again: Vec<u32>,
}

impl Rounds {
    /// Rounds over the edges between so many points, which are all due.
    ///
    /// # Errors
    ///
    /// Out of memory.
    pub fn new(alloc: Global, edges: &[Edge], points: u32) -> Result<Rounds, Memory>
        requires inside { AreInside points edges.now }
        requires few { length edges.now < 2 ^ 32 }
        ensures { IfOk result (AreRounds points edges.now) }
    {
        let leaving = Leaving::new(alloc, edges, points)?;
        let order = order_of(alloc, edges, &leaving, points)?;
        let is_due = vec![in alloc; true; points as usize]?;
        let turns = vec![in alloc; 0u8; points as usize]?;
        let again = Vec::new(alloc);
        Ok(Rounds {
            leaving,
            order,
            is_due,
            turns,
            again,
        })
    }

    /// Lowers distances in a round, or else relaxes each edge once. Answers None where all edges are met, and else a point
    /// from which predecessors may lead back to a negative cycle: the last one that was lowered, or one from which an edge
    /// leads too low.
    ///
    /// # Errors
    ///
    /// Out of memory.
    pub fn next(&mut self, edges: &[Edge], distances: &mut Distances) -> Result<Option<u32>, Memory>
        requires rounds { AreRounds (length distances.old.seconds) edges.now self.old }
        requires relaxed { IsRelaxed edges.now distances.old }
        ensures rounds { OnOk result (AreRounds (length distances.new.seconds) edges.now self.new) }
        ensures relaxed { OnOk result (IsRelaxed edges.now distances.new) }
        ensures size { OnOk result (length distances.new.seconds ≡ length distances.old.seconds) }
        ensures all { IfOk result (RelaxesAll edges.now distances.old distances.new) }
    {
        let lowered = self.round(edges, distances)?;
        if lowered.is_some() {
            return Ok(lowered);
        }
        Ok(distances.relax_all(edges))
    }

    /// Takes each point that is due when its turn comes, and answers the one that was lowered last.
    fn round(&mut self, edges: &[Edge], distances: &mut Distances) -> Result<Option<u32>, Memory>
        requires rounds { AreRounds (length distances.old.seconds) edges.now self.old }
        requires relaxed { IsRelaxed edges.now distances.old }
        ensures rounds { OnOk result (AreRounds (length distances.new.seconds) edges.now self.new) }
        ensures go_on { IfOk result (GoOn edges.now distances.old distances.new) }
    {
        self.turns.fill(0);
        let mut lowered = None;
        for place in 0..self.order.len() {
            let point = self.order[self.order.len() - 1 - place];
            self.turns[point as usize] = TURNS;
            if self.is_due[point as usize] {
                let found = self.take(edges, distances, point)?;
                lowered = found.or(lowered);
            }
        }
        Ok(lowered)
    }

    /// Takes a point, and those that are to be taken again then, and answers the one that was lowered last.
    fn take(
        &mut self,
        edges: &[Edge],
        distances: &mut Distances,
        point: u32,
    ) -> Result<Option<u32>, Memory>
        requires rounds { AreRounds (length distances.old.seconds) edges.now self.old }
        requires relaxed { IsRelaxed edges.now distances.old }
        requires point { point < length distances.old.seconds }
        ensures rounds { OnOk result (AreRounds (length distances.new.seconds) edges.now self.new) }
        ensures order { OnOk result (self.new.order ≡ self.old.order) }
        ensures go_on { IfOk result (GoOn edges.now distances.old distances.new) }
    {
        self.again.push(point)?;
        let mut lowered = None;
        while let Some(next) = self.again.pop() {
            if self.takes(next) {
                let found = self.relax_leaving(edges, distances, next)?;
                lowered = found.or(lowered);
            }
        }
        Ok(lowered)
    }

    /// Whether a point that is due may be taken in this round: then it is due no more.
    fn takes(&mut self, point: u32) -> bool
        requires due { point < length self.old.is_due.items }
        requires turns { point < length self.old.turns.items }
        ensures same { self.new ≡ record self.old { is_due = self.new.is_due; turns = self.new.turns } }
        ensures due { length self.new.is_due.items ≡ length self.old.is_due.items }
        ensures turns { length self.new.turns.items ≡ length self.old.turns.items }
    {
        let turns = self.turns[point as usize];
        if turns == 0 || !self.is_due[point as usize] {
            return false;
        }
        self.is_due[point as usize] = false;
        self.turns[point as usize] = turns - 1;
        true
    }

    /// Relaxes the edges that leave a point, and answers the point that was lowered last.
    fn relax_leaving(
        &mut self,
        edges: &[Edge],
        distances: &mut Distances,
        point: u32,
    ) -> Result<Option<u32>, Memory>
        requires rounds { AreRounds (length distances.old.seconds) edges.now self.old }
        requires relaxed { IsRelaxed edges.now distances.old }
        requires point { point < length distances.old.seconds }
        ensures rounds { OnOk result (AreRounds (length distances.new.seconds) edges.now self.new) }
        ensures order { OnOk result (self.new.order ≡ self.old.order) }
        ensures go_on { IfOk result (GoOn edges.now distances.old distances.new) }
        ensures again { OnOk result (total distances.new.seconds + length self.new.again.items ≤ total distances.old.seconds + length self.old.again.items) }
    {
        let mut lowered = None;
        let mut next = self.leaving.last[point as usize];
        while let Some(number) = next {
            if self.relax(edges, distances, number)? {
                lowered = Some(edges[number].constraint.to);
            }
            next = self.leaving.before[number];
        }
        Ok(lowered)
    }

    /// Whether the relaxation of an edge lowers the point that it leads to. This is then due, and to be taken again at
    /// once where the round has come to it.
    fn relax(
        &mut self,
        edges: &[Edge],
        distances: &mut Distances,
        number: usize,
    ) -> Result<bool, Memory>
        requires rounds { AreRounds (length distances.old.seconds) edges.now self.old }
        requires relaxed { IsRelaxed edges.now distances.old }
        requires number { number < length edges.now }
        ensures rounds { OnOk result (AreRounds (length distances.new.seconds) edges.now self.new) }
        ensures order { OnOk result (self.new.order ≡ self.old.order) }
        ensures leaving { OnOk result (self.new.leaving ≡ self.old.leaving) }
        ensures relaxed { OnOk result (IsRelaxed edges.now distances.new) }
        ensures size { OnOk result (length distances.new.seconds ≡ length distances.old.seconds) }
        ensures lowered { IfOk result (Lowers distances.old distances.new) }
        ensures again { OnOk result (total distances.new.seconds + length self.new.again.items ≤ total distances.old.seconds + length self.old.again.items) }
    {
        match distances.relax(edges, number) {
            Relaxed::Lowered => {}
            Relaxed::Met | Relaxed::TooLow => return Ok(false),
        }
        let point = edges[number].constraint.to;
        self.is_due[point as usize] = true;
        if self.turns[point as usize] > 0 {
            self.again.push(point)?;
        }
        Ok(true)
    }
}

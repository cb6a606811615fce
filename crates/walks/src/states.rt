//! The states that a search visits: points, with whether a step on the way was strict.
ghost use Rattle.std.specs.List.{position};
ghost use Rattle.std.specs.Prelude.{IfOk, IsTrue, OnOk, [], length, ◌*◌, ◌<◌, ◌≡◌, ◌≤◌};
ghost use Rattle.walks.specs.States as spec;
ghost use Rattle.walks.specs.States.{AreEarlier, StatesGrow, HasEnd, HasState, IsReached, IsTrace, VisitsState, entry_at, is_end};

use crate::edges::Edge;
use net_core::{Memory, Step, Walk};
use std::alloc::Global;
use std::marker::Model;

/// How a search came to an entry: from an earlier one, by a step.
#[derive(Clone, Copy)]
pub struct Arrival {
    pub parent: usize,
    pub step: Step,
}

/// A point that a search reached, and whether a step on the way to it was strict. The search starts at an entry with no
/// arrival.
#[derive(Clone, Copy)]
pub struct Entry {
    pub point: u32,
    pub strict: bool,
    pub arrival: Option<Arrival>,
}

/// The entries of a search, in the order in which they were visited, and a mark for each point and flag that has one.
#[derive(Drop)]
pub struct States {
    entries: Vec<Entry>,
    seen: Vec<bool>,
}

impl Model for States {
    ghost use Rattle.std.specs.Prelude.{length, ◌/◌};
    ghost use Rattle.walks.specs.States.{AreMarked, PlainStates};

    ghost Value = { PlainStates };

    ghost view = { λ a. record { entries = a.entries.items; points = length a.seen.items / 2 } };

    ghost invariant = { λ a. AreMarked a.entries.items a.seen.items };
}

impl States {
    /// No states yet, of this many points.
    pub fn new(alloc: Global, points: u32) -> Result<States, Memory>
        ensures { IfOk result (λ states. states ≡ record { entries = []; points = points }) }
    {
        let seen = vec![in alloc; false; 2 * points as usize]?;
        Ok(States {
            entries: Vec::new(alloc),
            seen,
        })
    }

    /// How many entries there are: at most two for each point.
    pub fn len(&self) -> usize
        ensures count { result ≡ length self.now.entries }
        ensures few { result ≤ 2 * self.now.points }
    {
        self.entries.len()
    }

    /// The entry of this number.
    pub fn entry(&self, k: usize) -> Entry
        requires { k < length self.now.entries }
        ensures entry { result ≡ entry_at self.now.entries k }
        ensures below { result.point < self.now.points }
    {
        self.entries[k]
    }

    /// Whether a state was visited.
    fn has(&self, point: u32, strict: bool) -> bool
        requires { point < self.now.points }
        ensures { IsTrue result → HasState self.now.entries point strict }
    {
        self.seen[place_of(point, strict)]
    }

    /// Appends an entry, unless one with its point and flag is there.
    pub fn visit(&mut self, entry: Entry) -> Result<(), Memory>
        requires { entry.point < self.old.points }
        ensures { OnOk result (VisitsState entry self.old self.new) }
    {
        let place = place_of(entry.point, entry.strict);
        if self.seen[place] {
            return Ok(());
        }
        self.entries.push(entry)?;
        self.seen[place] = true;
        Ok(())
    }

    /// Visits the state that an edge leads to from the entry of this number.
    pub fn follow(&mut self, head: usize, edge: Edge) -> Result<(), Memory>
        requires head { head < length self.old.entries }
        requires from { edge.atom.from ≡ (entry_at self.old.entries head).point }
        requires to { edge.atom.to < self.old.points }
        ensures grown { OnOk result (StatesGrow (λ e. e ≡ edge) head self.old self.new) }
        ensures reached { OnOk result (IsReached self.new.entries head edge) }
    {
        let here = self.entry(head);
        self.visit(next_entry(here, head, edge))
    }

    /// Whether a point was visited, after a strict step where that is asked for.
    pub fn has_end(&self, to: u32, strict: bool) -> bool
        requires { to < self.now.points }
        ensures { IsTrue result → HasEnd to strict self.now.entries }
    {
        self.has(to, true) || (!strict && self.has(to, false))
    }

    /// The number of the first entry at a point, after a strict step where that is asked for.
    pub fn find(&self, to: u32, strict: bool) -> Option<usize>
        ensures { result ≡ position (is_end to strict) self.now.entries }
    {
        self.entries
            .iter()
            .position(|entry| entry.point == to && (entry.strict || !strict))
    }

    /// The steps by which the search came to the entry of this number, from where it started.
    pub fn trace(&self, alloc: Global, last: usize) -> Result<Walk, Memory>
        requires last { last < length self.now.entries }
        requires earlier { AreEarlier self.now.entries }
        ensures trace { IfOk result (IsTrace self.now.entries last) }
        ensures short { IfOk result (λ steps. length steps ≤ last) }
        ensures few { IfOk result (λ steps. length steps < 2 * self.now.points) }
    {
        let mut steps = Vec::new(alloc);
        let mut k = last;
        while let Some(arrival) = self.entries[k].arrival {
            steps.push(arrival.step)?;
            k = arrival.parent;
        }
        steps.reverse();
        Ok(Walk::from_vec(steps))
    }
}

/// The entry that an edge leads to from the entry of this number, which is `here`.
fn next_entry(here: Entry, head: usize, edge: Edge) -> Entry
    ensures { result ≡ spec.next_entry here head edge }
{
    Entry {
        point: edge.atom.to,
        strict: here.strict || edge.atom.strict,
        arrival: Some(Arrival {
            parent: head,
            step: edge.step,
        }),
    }
}

/// Where the mark of a state stands.
fn place_of(point: u32, strict: bool) -> usize
    ensures { result ≡ spec.place point strict }
{
    if strict {
        2 * point as usize + 1
    } else {
        2 * point as usize
    }
}

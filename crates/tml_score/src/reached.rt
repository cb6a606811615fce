//! The points that a search has reached, in the order in which it did.
ghost use Rattle.net_core.specs.Limits.{max_points};
ghost use Rattle.std.specs.List.{Contains};
ghost use Rattle.std.specs.Prelude.{IfOk, IsTrue, OnOk, [], length, slice_index, ◌++◌, ◌<◌, ◌∷◌, ◌≡◌, ◌≤◌, ◌↔◌};

use net_core::Memory;
use std::alloc::Global;
use std::marker::Model;

/// The points that a search has reached, of as many as there can be. What is left of an earlier search is never looked
/// at: a point was reached if the place that stands for it has this point, so nothing is cleared between searches.
#[derive(Drop)]
pub struct ReachedPoints {
    points: Vec<u32>,
    places: Vec<u32>,
}

impl Model for ReachedPoints {
    ghost use Rattle.std.specs.Prelude.{length};
    ghost use Rattle.tml_score.specs.Reached.{StandAtPlaces, PlainReached};

    ghost Value = { PlainReached };

    ghost view = { λ a. record { points = a.points.items; room = length a.places.items } };

    ghost invariant = { λ a. StandAtPlaces a.points.items a.places.items };
}

impl ReachedPoints {
    /// No points yet, of this number.
    ///
    /// # Errors
    ///
    /// Out of memory.
    pub fn new(alloc: Global, room: u32) -> Result<ReachedPoints, Memory>
        requires { room ≤ max_points }
        ensures { IfOk result (λ reached. reached ≡ record { points = []; room = room }) }
    {
        let places = vec![in alloc; 0; room as usize]?;
        Ok(ReachedPoints {
            points: Vec::new(alloc),
            places,
        })
    }

    /// Begins a search at a point.
    ///
    /// # Errors
    ///
    /// Out of memory.
    pub fn start(&mut self, point: u32) -> Result<(), Memory>
        requires { point < self.old.room }
        ensures { OnOk result (self.new ≡ record { points = point ∷ []; room = self.old.room }) }
    {
        self.points.clear();
        self.add(point)
    }

    /// Adds a point that was not reached before.
    ///
    /// # Errors
    ///
    /// Out of memory.
    pub fn add(&mut self, point: u32) -> Result<(), Memory>
        requires room { point < self.old.room }
        requires new { Contains self.old.points point → ⊥ }
        ensures { OnOk result (self.new ≡ record { points = self.old.points ++ point ∷ []; room = self.old.room }) }
    {
        let place = self.points.len() as u32;
        self.points.push(point)?;
        self.places[point as usize] = place;
        Ok(())
    }

    /// Whether a point was reached.
    pub fn has(&self, point: u32) -> bool
        requires { point < self.now.room }
        ensures { IsTrue result ↔ Contains self.now.points point }
    {
        let place = self.places[point as usize] as usize;
        self.points.get(place) == Some(&point)
    }

    /// How many points were reached.
    pub fn len(&self) -> usize
        ensures count { result ≡ length self.now.points }
        ensures few { result ≤ self.now.room }
    {
        self.points.len()
    }

    /// The point that was reached at this turn, counted from 0.
    pub fn point(&self, turn: usize) -> u32
        requires { turn < length self.now.points }
        ensures point { result ≡ slice_index self.now.points turn }
        ensures room { result < self.now.room }
    {
        self.points[turn]
    }
}

/// The points that a search has reached from its first point on, and from its last one back.
#[derive(Drop)]
pub struct Sides {
    pub onward: ReachedPoints,
    pub back: ReachedPoints,
}

impl Sides {
    /// No points yet on either side, of this number.
    ///
    /// # Errors
    ///
    /// Out of memory.
    pub fn new(alloc: Global, room: u32) -> Result<Sides, Memory>
        requires { room ≤ max_points }
        ensures { IfOk result (λ sides. (sides.onward.room ≡ room) × (sides.back.room ≡ room)) }
    {
        Ok(Sides {
            onward: ReachedPoints::new(alloc, room)?,
            back: ReachedPoints::new(alloc, room)?,
        })
    }
}

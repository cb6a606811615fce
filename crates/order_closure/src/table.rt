//! A table of orders, closed under what follows.
ghost use Rattle.net_core.specs.Atoms.{Satisfies};
ghost use Rattle.net_core.specs.Relations.{Timeline};
ghost use Rattle.order_closure.specs.Bits.{AreBitsOf};
ghost use Rattle.order_closure.specs.Cells.{stronger};
ghost use Rattle.order_closure.specs.Tables.{AreInRange, Denies, IsClosed, Keeps, Stands, cell_at, max_table_points, new_cell, table_of, way};
ghost use Rattle.std.specs.Prelude.{IfOk, IsErr, List, OnErr, OnOk, [], ◌++◌, ◌<◌, ◌∷◌, ◌↔◌, ◌≡◌, ◌≢◌, ◌≤◌};

use crate::Cell;
use crate::planes::{MOST_WORDS, cell_at, clear, copied_row, reflect, row};
use crate::rows::{join_row, raise};
use net_core::{Atom, Memory};
use std::alloc::Global;
use std::error::Error;
use std::fmt;
use std::marker::Model;

/// An atom that the table denies.
#[derive(Clone, Copy, Debug, PartialEq, Eq)]
pub struct WouldClash;

impl fmt::Display for WouldClash {
    fn fmt<W: fmt::Write>(&self, f: &mut fmt::Formatter<W>) -> fmt::Result {
        f.write_str("the table denies the atom")
    }
}

impl Error for WouldClash {}

/// What is known of the order of each two of some points. It is closed: each point is with itself, and what follows from
/// two cells stands in a third. It is kept as two planes of bits, whose rows have `width` words: in the one, bit j of row i
/// is set where cell (i, j) is Weak or Strict, in the other where it is Strict. One more row of bits says which points
/// others reach: where bit j of `reached` is not set, no point but j itself is before or with point j, and so an atom from
/// point j raises no row but row j.
#[derive(Drop)]
pub struct Closed {
    size: usize,
    width: usize,
    weak: Vec<u64>,
    strict: Vec<u64>,
    reached: [u64; MOST_WORDS],
}

impl Model for Closed {
    ghost use Rattle.order_closure.specs.Planes.{AreClosedPlanes, plane_cell};
    ghost use Rattle.order_closure.specs.Tables.{Table, table_of};

    ghost Value = { Table };

    ghost view = { λ a. table_of a.size (plane_cell a.width a.weak.items a.strict.items) };

    ghost invariant = { λ a. AreClosedPlanes a.size a.width a.weak.items a.strict.items a.reached };
}

#[tactic(auto, unfolding(crate::specs::Planes::AreClosedPlanes))]
impl Closed {
    /// A table in which nothing is known but that each point is with itself.
    ///
    /// # Errors
    ///
    /// Out of memory.
    pub fn new(alloc: Global, points: u32) -> Result<Closed, Memory>
        requires { points ≤ max_table_points }
        ensures ok { IfOk result (λ table. table ≡ table_of points new_cell) }
        ensures kept { IfOk result (λ table. (t : Timeline) → Keeps table t) }
        ensures stands { IfOk result (λ table. Stands table []) }
    {
        let size = points as usize;
        let width = size.div_ceil(64);
        let mut weak = clear(alloc, size * width)?;
        let strict = clear(alloc, size * width)?;
        reflect(&mut weak, size, width);
        Ok(Closed {
            size,
            width,
            weak,
            strict,
            reached: [0; MOST_WORDS],
        })
    }

    /// How many points there are, at most `MAX_TABLE_POINTS`.
    pub fn points(&self) -> u32
        ensures points { result ≡ self.now.points }
        ensures few { self.now.points ≤ max_table_points }
        ensures closed { IsClosed self.now }
    {
        self.size as u32
    }

    /// What is known of point `i` and point `j`.
    pub fn cell(&self, i: u32, j: u32) -> Cell
        requires i { i < self.now.points }
        requires j { j < self.now.points }
        ensures { result ≡ cell_at self.now i j }
    {
        cell_at(&self.weak, &self.strict, self.width, i as usize, j as usize)
    }

    /// The points that point `i` is before or with, as bits. It takes no memory.
    pub fn weak_row(&self, i: u32) -> &[u64]
        requires { i < self.now.points }
        ensures { AreBitsOf self.now.points (λ j. cell_at self.now i j ≢ Cell.Free) result.now }
    {
        row(&self.weak, self.width, i as usize)
    }

    /// The points that point `i` is before, as bits. It takes no memory.
    pub fn strict_row(&self, i: u32) -> &[u64]
        requires { i < self.now.points }
        ensures { AreBitsOf self.now.points (λ j. cell_at self.now i j ≡ Cell.Strict) result.now }
    {
        row(&self.strict, self.width, i as usize)
    }

    /// The same table once more.
    ///
    /// # Errors
    ///
    /// Out of memory.
    pub fn copy(&self, alloc: Global) -> Result<Closed, Memory>
        ensures { IfOk result (λ table. table ≡ self.now) }
    {
        let weak = Vec::from_slice(alloc, &self.weak)?;
        let strict = Vec::from_slice(alloc, &self.strict)?;
        Ok(Closed {
            size: self.size,
            width: self.width,
            weak,
            strict,
            reached: self.reached,
        })
    }

    /// Adds an atom, and all that follows. It takes no memory.
    ///
    /// # Errors
    ///
    /// `WouldClash` comes exactly where the cell from `atom.to` to `atom.from` is Strict, or is Weak and the atom is strict.
    /// The table is then unchanged.
    pub fn add(&mut self, atom: Atom) -> Result<(), WouldClash>
        requires from { atom.from < self.old.points }
        requires to { atom.to < self.old.points }
        ensures points { self.new.points ≡ self.old.points }
        // Each cell is the stronger of what it was and of the way over the atom.
        ensures ok { OnOk result (self.new ≡ table_of self.old.points (λ i j. stronger (cell_at self.old i j) (way (cell_at self.old) atom i j))) }
        ensures err { OnErr result (self.new ≡ self.old) }
        ensures clash { IsErr result ↔ Denies (cell_at self.old atom.to atom.from) atom.strict }
        // The timelines that keep the table are those that kept it and of which the atom is true. Where it would clash there
        // are none of them.
        ensures kept { OnOk result ((t : Timeline) → Keeps self.new t ↔ (Keeps self.old t × Satisfies t atom)) }
        ensures denied { OnErr result ((t : Timeline) → Keeps self.old t → Satisfies t atom → ⊥) }
        // The table stands for the atoms that were added.
        ensures stands { OnOk result ((atoms : List Atom) → AreInRange self.old.points atoms → Stands self.old atoms
            → Stands self.new (atoms ++ atom ∷ [])) }
    {
        if self.cell(atom.to, atom.from).denies(atom.strict) {
            return Err(WouldClash);
        }
        raise(
            &mut self.weak,
            &mut self.strict,
            &self.reached,
            self.size,
            self.width,
            atom,
        );
        // What is now before a point or with it was so, or is so over `atom.to`.
        let over = copied_row(&self.weak, self.width, atom.to as usize);
        join_row(&mut self.reached, self.width, 0, &over);
        Ok(())
    }
}

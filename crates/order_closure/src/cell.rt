//! What is known of the order of two points.
ghost use Rattle.order_closure.specs.Cells as spec;
ghost use Rattle.order_closure.specs.Tables.{Denies};
ghost use Rattle.std.specs.Prelude.{IsTrue, ◌≤◌, ◌≡◌, ◌↔◌};

/// What is known of the order of a point and another one.
#[derive(Clone, Copy, PartialEq, Eq)]
pub enum Cell {
    /// Nothing.
    Free,
    /// The first is before the other, or at the same place.
    Weak,
    /// The first is before the other.
    Strict,
}

impl Cell {
    /// The order of an atom.
    pub(crate) fn order(strict: bool) -> Cell
        ensures { result ≡ spec.order strict }
    {
        if strict { Cell::Strict } else { Cell::Weak }
    }

    /// What follows from this order and the next.
    pub(crate) fn joined(self, next: Cell) -> Cell
        ensures { result ≡ spec.joined self next }
    {
        match (self, next) {
            (Cell::Free, _) | (_, Cell::Free) => Cell::Free,
            (Cell::Weak, Cell::Weak) => Cell::Weak,
            (Cell::Strict, _) | (_, Cell::Strict) => Cell::Strict,
        }
    }

    /// Whether the cell from one point to another gives an order of them.
    pub fn gives(self, strict: bool) -> bool
        ensures { IsTrue result ↔ (spec.strength (spec.order strict) ≤ spec.strength self) }
    {
        match (self, strict) {
            (Cell::Strict, _) | (Cell::Weak, false) => true,
            (Cell::Weak, true) | (Cell::Free, _) => false,
        }
    }

    /// Whether the cell from a point to another one denies an atom from the other to the one.
    pub(crate) fn denies(self, strict: bool) -> bool
        ensures { IsTrue result ↔ Denies self strict }
    {
        match self {
            Cell::Strict => true,
            Cell::Weak => strict,
            Cell::Free => false,
        }
    }
}

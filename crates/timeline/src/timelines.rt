//! The least timeline that keeps a table, and the least one that keeps it and makes an atom false.
ghost use Rattle.net_core.specs.Atoms.{Satisfies};
ghost use Rattle.net_core.specs.Least.{IsLeast};
ghost use Rattle.net_core.specs.Ranks.{timeline_of};
ghost use Rattle.order_closure.specs.Cells.{order, strength};
ghost use Rattle.order_closure.specs.Tables.{Keeps, cell_at};
ghost use Rattle.order_closure.specs.Timelines as spec;
ghost use Rattle.std.specs.Prelude.{IfOk, length, slice_index, ℕ, ◌%◌, ◌<◌, ◌≡◌};

use crate::ranking::ranked;
use net_core::{Atom, Memory, Ranks};
use order_closure::Closed;
use std::alloc::Global;

/// The least ranks that keep every cell: at each point they are at most those of every timeline that does. None is
/// above the number of points less one.
///
/// # Errors
///
/// Out of memory.
pub fn least(alloc: Global, closed: &Closed) -> Result<Ranks, Memory>
    requires { closed.now.points % 2 ≡ 0 }
    ensures size { IfOk result (λ ranks. length ranks ≡ closed.now.points) }
    ensures least { IfOk result (λ ranks. IsLeast closed.now.points (Keeps closed.now) (timeline_of ranks)) }
    ensures small { IfOk result (λ ranks. (p : ℕ) → p < closed.now.points → slice_index ranks p < closed.now.points) }
{
    let ranks = ranked(alloc, closed)?;
    Ok(Ranks::from_vec(ranks))
}

/// The least ranks that keep every cell and make the atom false.
///
/// # Errors
///
/// Out of memory.
pub fn counter(alloc: Global, closed: &Closed, atom: Atom) -> Result<Ranks, Memory>
    requires even { closed.now.points % 2 ≡ 0 }
    requires from { atom.from < closed.now.points }
    requires to { atom.to < closed.now.points }
    requires weaker { strength (cell_at closed.now atom.from atom.to) < strength (order atom.strict) }
    ensures size { IfOk result (λ ranks. length ranks ≡ closed.now.points) }
    ensures least { IfOk result (λ ranks. IsLeast closed.now.points (λ t. Keeps closed.now t × (Satisfies t atom → ⊥))
        (timeline_of ranks)) }
    ensures small { IfOk result (λ ranks. (p : ℕ) → p < closed.now.points → slice_index ranks p < closed.now.points) }
{
    let mut table = closed.copy(alloc)?;
    let Ok(()) = table.add(opposite(atom)) else {
        unreachable!()
    };
    least(alloc, &table)
}

/// The atom that is true where this one is false.
fn opposite(atom: Atom) -> Atom
    ensures { result ≡ spec.opposite atom }
{
    Atom {
        from: atom.to,
        to: atom.from,
        strict: !atom.strict,
    }
}

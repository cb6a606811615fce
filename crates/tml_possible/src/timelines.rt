//! The least timelines in which two intervals have each of the base relations that they can have.
ghost use Rattle.net_core.specs.Atoms.{atoms_of as orders_of};
ghost use Rattle.net_core.specs.Least.{AreLeast};
ghost use Rattle.net_core.specs.Relations.{Relates, Timeline};
ghost use Rattle.order_closure.specs.Tables.{Keeps};
ghost use Rattle.std.specs.Prelude.{IfOk, length, ◌%◌, ◌*◌, ◌<◌, ◌≡◌, ◌↔◌};
ghost use Rattle.tml_possible.specs.Possible.{AreShown, CanHold};

use crate::possible_set;
use named::Named;
use net_core::{List, Memory, Ranks, Rel, atoms_of};
use order_closure::{Closed, MAX_TABLE_POINTS};
use std::alloc::Global;
use timeline::least;

/// A base relation that two intervals can have, and ranks in which they have it.
#[derive(Drop)]
pub struct PossibleItem {
    pub rel: Rel,
    pub ranks: Ranks,
}

/// An item for each base relation that holds between two intervals in some timeline that keeps a table, in the order of
/// the table of relations, with the least ranks that keep the table and in which it holds.
///
/// # Errors
///
/// Out of memory.
pub fn possible(
    alloc: Global,
    closed: &Closed,
    a: u32,
    b: u32,
) -> Result<List<PossibleItem>, Memory>
    requires even { closed.now.points % 2 ≡ 0 }
    requires a { 2 * a < closed.now.points }
    requires b { 2 * b < closed.now.points }
    ensures { IfOk result (AreShown closed.now.points (Keeps closed.now) a b) }
{
    let set = possible_set(closed, a, b);
    let mut items = List::new(alloc);
    for rel in Rel::all() {
        if set.has(*rel) {
            let ranks = least_with(alloc, closed, a, *rel, b)?;
            items.push(PossibleItem { rel: *rel, ranks })?;
        }
    }
    Ok(items)
}

/// The least ranks that keep a table and in which a relation holds that can.
///
/// # Errors
///
/// Out of memory.
fn least_with(alloc: Global, closed: &Closed, a: u32, rel: Rel, b: u32) -> Result<Ranks, Memory>
    requires even { closed.now.points % 2 ≡ 0 }
    requires a { 2 * a < closed.now.points }
    requires b { 2 * b < closed.now.points }
    requires can { CanHold closed.now a rel b }
    ensures { IfOk result (AreLeast closed.now.points (λ t. Keeps closed.now t × Relates t a rel b)) }
{
    let mut table = closed.copy(alloc)?;
    raise(&mut table, a, rel, b);
    least(alloc, &table)
}

/// Adds the orders that a relation is, which can hold.
fn raise(table: &mut Closed, a: u32, rel: Rel, b: u32)
    requires even { table.old.points % 2 ≡ 0 }
    requires a { 2 * a < table.old.points }
    requires b { 2 * b < table.old.points }
    requires can { CanHold table.old a rel b }
    ensures points { table.new.points ≡ table.old.points }
    ensures kept { (t : Timeline) → Keeps table.new t ↔ (Keeps table.old t × Relates t a rel b) }
{
    prove!(table.points() <= MAX_TABLE_POINTS);
    let atoms = atoms_of(rel, a, b);
    for k in 0..atoms.count() {
        let Some(atom) = atoms.atom(k) else {
            unreachable!()
        };
        let Ok(()) = table.add(atom) else {
            unreachable!()
        };
    }
}

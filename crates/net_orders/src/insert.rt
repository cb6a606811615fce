//! Adding orders that a table does not give yet.
ghost use Rattle.net_orders.specs.Steps.{AddsOrClashes, AddsPart, Excludes};
ghost use Rattle.net_core.specs.Atoms.{Satisfies};
ghost use Rattle.order_closure.specs.Tables.{AreInRange, SatisfiesAll};
ghost use Rattle.std.specs.List.{All};
ghost use Rattle.std.specs.Prelude.{IfErr, OnOk, length, ◌<◌};

use net_core::Atom;
use order_closure::{Closed, WouldClash};

/// Adds an atom, unless the table gives it.
pub fn insert(table: &mut Closed, atom: Atom) -> Result<(), WouldClash>
    requires from { atom.from < table.old.points }
    requires to { atom.to < table.old.points }
    ensures { AddsOrClashes (λ t. Satisfies t atom) table.old table.new result }
{
    if table.cell(atom.from, atom.to).gives(atom.strict) {
        return Ok(());
    }
    table.add(atom)
}

/// Adds orders of points, one after another.
pub fn add_orders(table: &mut Closed, orders: &[Atom]) -> Result<(), WouldClash>
    requires { AreInRange table.old.points orders.now }
    ensures { AddsOrClashes (SatisfiesAll orders.now) table.old table.new result }
{
    for order in orders {
        insert(table, *order)?;
    }
    Ok(())
}

/// Adds those of some orders that have these numbers, in this sequence. If one of them would clash, no timeline that the table
/// allows satisfies all orders.
pub fn add_in_sequence(
    table: &mut Closed,
    orders: &[Atom],
    sequence: &[usize],
) -> Result<(), WouldClash>
    requires in_range { AreInRange table.old.points orders.now }
    requires sequence { All (λ k. k < length orders.now) sequence.now }
    ensures ok { OnOk result (AddsPart (SatisfiesAll orders.now) table.old table.new) }
    ensures err { IfErr result (λ _. Excludes (SatisfiesAll orders.now) table.old) }
{
    for number in sequence {
        insert(table, orders[*number])?;
    }
    Ok(())
}

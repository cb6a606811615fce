//! The orders of intervals and of links, and adding those of links.
ghost use Rattle.net_orders.specs.Steps.{AddsToTable, AddsOrClashes, IsFirstExcluded, KeepsLinks};
ghost use Rattle.net_core.specs.Atoms as spec;
ghost use Rattle.net_core.specs.Atoms.{atoms_in, before};
ghost use Rattle.net_core.specs.Nets.{link_at, points};
ghost use Rattle.order_closure.specs.Tables.{AreInRange, SatisfiesAll};
ghost use Rattle.std.specs.List.{slice_get};
ghost use Rattle.std.specs.Prelude.{IfErr, OnOk, length, ◌*◌, ◌+◌, ◌<◌, ◌^◌, ◌≡◌};

use crate::insert::insert;
use net_core::{Atom, Atoms, Net, atoms_of};
use order_closure::{Closed, WouldClash};
use std::error::Error;
use std::fmt;

/// The order of the start and the end of an interval.
pub fn span_order(interval: u32) -> Atom
    requires { interval < 2 ^ 31 }
    ensures { result ≡ before (2 * interval) (2 * interval + 1) }
{
    Atom {
        from: 2 * interval,
        to: 2 * interval + 1,
        strict: true,
    }
}

/// The first link that clashes with those before it.
#[derive(Clone, Copy, Debug, PartialEq, Eq)]
pub struct FirstClash {
    pub link: u32,
}

impl fmt::Display for FirstClash {
    fn fmt<W: fmt::Write>(&self, f: &mut fmt::Formatter<W>) -> fmt::Result {
        write!(f, "link {} clashes with those before it", self.link)
    }
}

impl Error for FirstClash {}

/// Adds that each link holds.
pub fn add_links(table: &mut Closed, net: &Net) -> Result<(), FirstClash>
    requires { table.old.points ≡ points net.now }
    ensures ok { OnOk result (AddsToTable (KeepsLinks net.now) table.old table.new) }
    ensures err { IfErr result (λ first. IsFirstExcluded net.now table.old first.link) }
{
    for link in 0..net.links() {
        prove!(table.points() == 2 * net.intervals());
        match add_atoms(table, atoms_of_link(net, link)) {
            Ok(()) => {}
            Err(WouldClash) => return Err(FirstClash { link }),
        }
    }
    Ok(())
}

/// The orders of points that the link of this number is.
pub fn atoms_of_link(net: &Net, k: u32) -> Atoms
    requires { k < length net.now.links }
    ensures atoms { let link = link_at net.now k in atoms_in result ≡ spec.atoms_of link.a link.rel link.b }
    ensures in_range { AreInRange (points net.now) (atoms_in result) }
{
    prove!(k < net.links());
    let link = net.link(k);
    atoms_of(link.rel, link.a, link.b)
}

/// Adds the orders of points that a relation is.
fn add_atoms(table: &mut Closed, atoms: Atoms) -> Result<(), WouldClash>
    requires { AreInRange table.old.points (atoms_in atoms) }
    ensures { AddsOrClashes (SatisfiesAll (atoms_in atoms)) table.old table.new result }
{
    for number in 0..atoms.count() {
        insert(table, nth_order(&atoms, number))?;
    }
    Ok(())
}

/// The order of this number, of those that a relation is.
pub fn nth_order(atoms: &Atoms, number: u32) -> Atom
    requires { number < length (atoms_in atoms.now) }
    ensures { slice_get (atoms_in atoms.now) number ≡ Some result }
{
    match atoms.atom(number) {
        Some(atom) => atom,
        None => unreachable!(),
    }
}

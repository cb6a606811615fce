//! Whether a relation holds between two intervals in every timeline that fits a net.
ghost use Rattle.clash.specs.Closures.{IsClosureOf};
ghost use Rattle.net_core.specs.Atoms.{atoms_in};
ghost use Rattle.net_core.specs.Entailment.{AreIntervals, HasTimeline};
ghost use Rattle.net_core.specs.Limits.{max_points};
ghost use Rattle.order_answers.specs.Ask.{IsCounterText, IsFirstNotGiven, OfRelation};
ghost use Rattle.order_closure.specs.Cells.{order, strength};
ghost use Rattle.order_closure.specs.Tables.{AreInRange, cell_at};
ghost use Rattle.std.specs.Prelude.{◌%◌, ◌<◌, ◌≡◌, ◌≤◌, IfOk};

use crate::ask::proving::proof_text;
use evidence_format::Evidence;
use net_answers::{NetQuery, evidence_text};
use net_core::{Atom, Atoms, MAX_INTERVALS, Net, Rel, atoms_of};
use order_closure::Closed;
use runs::{Answer, Status};
use std::alloc::{AllocError, Global};
use timeline::counter;
use tml_refs::Document;

/// A relation between two intervals by their numbers.
#[derive(Clone, Copy)]
pub struct Numbers {
    pub a: u32,
    pub rel: Rel,
    pub b: u32,
}

impl NetQuery for Numbers {
    ghost use Rattle.answers.specs.Names.{AreOf};
    ghost use Rattle.order_answers.specs.Ask.{of_numbers};

    ghost is_of = { λ numbers contents. AreOf contents numbers.a numbers.b };

    ghost says = { λ numbers. of_numbers numbers.a numbers.rel numbers.b };

    /// A proof that the relation holds in every timeline that fits the net, or a counterexample, as evidence.
    fn answer(
        &self,
        alloc: Global,
        _document: &Document<'_>,
        net: &Net,
        closure: &Closed,
    ) -> Result<Answer, AllocError> {
        Ok(Answer::done(decide(alloc, net, closure, *self)?))
    }
}

/// The text of a proof that a relation holds in every timeline that fits the net, or of a counterexample.
fn decide(
    alloc: Global,
    net: &Net,
    closure: &Closed,
    numbers: Numbers,
) -> Result<Vec<u8>, AllocError>
    requires intervals { AreIntervals net.now numbers.a numbers.b }
    requires closure { IsClosureOf net.now closure.now }
    requires fits { HasTimeline net.now }
    ensures { IfOk result (λ text. OfRelation numbers.a numbers.rel numbers.b net.now Status.Done text.items) }
{
    let Numbers { a, rel, b } = numbers;
    prove!(net.intervals() <= MAX_INTERVALS);
    match first_not_given(closure, atoms_of(rel, a, b)) {
        None => proof_text(alloc, net, a, rel, b),
        Some(atom) => counterexample_text(alloc, closure, a, rel, b, atom),
    }
}

/// The first of some orders that the table does not give.
fn first_not_given(table: &Closed, atoms: Atoms) -> Option<Atom>
    requires { AreInRange table.now.points (atoms_in atoms) }
    ensures { IsFirstNotGiven table.now (atoms_in atoms) result }
{
    for k in 0..atoms.count() {
        let Some(atom) = atoms.atom(k) else {
            unreachable!()
        };
        if !table.cell(atom.from, atom.to).gives(atom.strict) {
            return Some(atom);
        }
    }
    None
}

/// The text of the least timeline that keeps a table and makes an order false that the table does not give.
fn counterexample_text(
    alloc: Global,
    table: &Closed,
    a: u32,
    rel: Rel,
    b: u32,
    atom: Atom,
) -> Result<Vec<u8>, AllocError>
    requires even { table.now.points % 2 ≡ 0 }
    requires few { table.now.points ≤ max_points }
    requires from { atom.from < table.now.points }
    requires to { atom.to < table.now.points }
    requires a { a < table.now.points }
    requires b { b < table.now.points }
    requires weaker { strength (cell_at table.now atom.from atom.to) < strength (order atom.strict) }
    ensures { IfOk result (λ text. IsCounterText table.now a rel b atom text.items) }
{
    let ranks = counter(alloc, table, atom)?;
    evidence_text(alloc, Evidence::Counter { a, rel, b, ranks })
}

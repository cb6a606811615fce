//! Proofs that a relation holds in every timeline that fits a net, by walks.
ghost use Rattle.net_core.specs.Entailment.{AlwaysHolds, AreIntervals, HasTimeline};
ghost use Rattle.evidence_check.specs.Refusals.{atom_at};
ghost use Rattle.evidence_check.specs.Supported.{IsProof};
ghost use Rattle.net_core.specs.Atoms.{IsInRange, atoms_in, atoms_of as atoms_of_relation};
ghost use Rattle.net_core.specs.Firsts.{IsFirst};
ghost use Rattle.net_core.specs.Nets.{IsNet, points};
ghost use Rattle.order_closure.specs.Tables.{AreInRange};
ghost use Rattle.std.specs.Prelude.{◌*◌, ◌≡◌, ◌≤◌, IfOk, None, length, replicate, true};
ghost use Rattle.order_answers.specs.Ask.{AreWalks, ShowsProof};

use evidence_format::Evidence;
use net_answers::evidence_text;
use net_core::{Atom, Atoms, List, MAX_INTERVALS, Net, Rel, Walk, atoms_of};
use std::alloc::{AllocError, Global};
use walks::walk;

/// The text of a proof that the relation holds, by a walk for each order that it is.
pub fn proof_text(alloc: Global, net: &Net, a: u32, rel: Rel, b: u32) -> Result<Vec<u8>, AllocError>
    requires intervals { AreIntervals net.now a b }
    requires fits { HasTimeline net.now }
    requires always { let atoms = atoms_of_relation a rel b in IsFirst (length atoms) (λ k. AlwaysHolds net.now (atom_at atoms k)) None }
    ensures { IfOk result (λ text. ShowsProof net.now a rel b text.items) }
{
    prove!(net.intervals() <= MAX_INTERVALS);
    let walks = walks_for(alloc, net, atoms_of(rel, a, b))?;
    evidence_text(alloc, Evidence::Entails { a, rel, b, walks })
}

/// A walk for each of some orders that hold in every timeline that fits.
fn walks_for(alloc: Global, net: &Net, atoms: Atoms) -> Result<List<Walk>, AllocError>
    requires range { AreInRange (points net.now) (atoms_in atoms) }
    requires fits { HasTimeline net.now }
    requires always { IsFirst (length (atoms_in atoms)) (λ k. AlwaysHolds net.now (atom_at (atoms_in atoms) k)) None }
    ensures { IfOk result (AreWalks net.now (atoms_in atoms)) }
{
    let keep = vec![in alloc; true; net.links() as usize]?;
    let mut walks = List::new(alloc);
    for k in 0..atoms.count() {
        let Some(atom) = atoms.atom(k) else {
            unreachable!()
        };
        let steps = walk_for(alloc, net, &keep, atom)?;
        walks.push(steps)?;
    }
    Ok(walks)
}

/// A walk over all links for an order that holds in every timeline that fits: if some timeline does, there is one.
fn walk_for(alloc: Global, net: &Net, keep: &[bool], atom: Atom) -> Result<Walk, AllocError>
    requires net { IsNet net.now }
    requires all { keep.now ≡ replicate (length net.now.links) true }
    requires range { IsInRange (points net.now) atom }
    requires fits { HasTimeline net.now }
    requires always { AlwaysHolds net.now atom }
    ensures proof { IfOk result (IsProof net.now atom) }
    ensures short { IfOk result (λ steps. length steps ≤ 2 * points net.now) }
{
    match walk(alloc, net, keep, atom.from, atom.to, atom.strict)? {
        Some(steps) => Ok(steps),
        None => unreachable!(),
    }
}

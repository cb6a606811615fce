//! Whether walks prove the orders that a relation is.
ghost use Rattle.evidence_check.specs.Following.{StepsLeadTo, StepsStopAt};
ghost use Rattle.evidence_check.specs.Refusals.{IsNoProof, IsWalkRefused};
ghost use Rattle.evidence_check.specs.Supported.{IsProof, ProveAll};
ghost use Rattle.evidence_format.specs.Evidence.{AreSteps};
ghost use Rattle.evidence_format.specs.Numbers.{IsNumber};
ghost use Rattle.net_core.specs.Atoms.{atoms_in};
ghost use Rattle.net_core.specs.Fits.{EveryLink};
ghost use Rattle.net_core.specs.Steps.{GoesBy, atom_of};
ghost use Rattle.net_core.specs.declared.atom.Atom.{Atom as AtomOf};
ghost use Rattle.std.specs.List.{All};
ghost use Rattle.std.specs.Prelude.{IfErr, IfNone, IfOk, IfSome, OnOk, Some, length, ◌≡◌, ◌||◌};

use crate::refusal::{Reason, Refused};
use net_core::{Atom, Atoms, Net, Step, Walk, step_atom};

/// Ok where each walk proves the order of its number, else the first one that does not, and the first reason there.
pub fn prove_all(net: &Net, atoms: Atoms, walks: &[Walk]) -> Result<(), Refused>
    requires one_each { length walks.now ≡ length (atoms_in atoms) }
    requires few { All AreSteps walks.now }
    ensures ok { OnOk result (ProveAll net.now (atoms_in atoms) walks.now) }
    ensures err { IfErr result (IsWalkRefused net.now (atoms_in atoms) walks.now) }
{
    for k in 0..atoms.count() {
        let Some(atom) = atoms.atom(k) else {
            unreachable!()
        };
        if let Err(reason) = prove(net, atom, walks[k as usize].as_slice()) {
            return Err(Refused {
                part: k + 1,
                reason,
            });
        }
    }
    Ok(())
}

/// Ok where the steps are a walk from the one point of an atom to the other, with a strict step where the atom is strict,
/// else the first reason why they are none.
fn prove(net: &Net, atom: Atom, steps: &[Step]) -> Result<(), Reason>
    requires { IsNumber (length steps.now) }
    ensures ok { OnOk result (IsProof net.now atom steps.now) }
    ensures err { IfErr result (IsNoProof net.now atom steps.now) }
{
    let reached = match follow(net, atom.from, steps) {
        Ok(reached) => reached,
        Err(step) => return Err(Reason::Step { step }),
    };
    if reached.at != atom.to {
        return Err(Reason::End);
    }
    if atom.strict && !reached.strict {
        return Err(Reason::Weak);
    }
    Ok(())
}

/// Where steps lead, and whether one of them is strict.
#[derive(Clone, Copy)]
pub struct WalkEnd {
    pub at: u32,
    pub strict: bool,
}

/// Where the steps lead from a point.
///
/// # Errors
///
/// The first step that does not go on.
pub fn follow(net: &Net, from: u32, steps: &[Step]) -> Result<WalkEnd, u32>
    requires { IsNumber (length steps.now) }
    ensures ok { IfOk result (StepsLeadTo net.now from steps.now) }
    ensures err { IfErr result (StepsStopAt net.now from steps.now) }
{
    let mut at = from;
    let mut strict = false;
    let mut k = 0;
    for step in steps {
        let Some(next) = next_of(net, at, step) else {
            return Err(k);
        };
        at = next.to;
        strict = either(strict, next.strict);
        k += 1;
    }
    Ok(WalkEnd { at, strict })
}

/// The order that a step goes by, where it begins at a point.
fn next_of(net: &Net, at: u32, step: &Step) -> Option<Atom>
    ensures some { IfSome result (λ next. GoesBy net.now EveryLink step.now next) }
    ensures begins { IfSome result (λ next. next.from ≡ at) }
    ensures none { IfNone result ((next : AtomOf) → atom_of net.now step.now ≡ Some next → next.from ≡ at → ⊥) }
{
    let next = step_atom(net, step)?;
    if next.from == at { Some(next) } else { None }
}

fn either(a: bool, b: bool) -> bool
    ensures { result ≡ (a || b) }
{
    a || b
}

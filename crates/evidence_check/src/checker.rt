//! Checking evidence.
ghost use Rattle.evidence_check.specs.Claims.{ShowsTruth, claim_of};
ghost use Rattle.evidence_check.specs.Asked.{AreRisingLinks};
ghost use Rattle.evidence_check.specs.Demands.{AreDemands};
ghost use Rattle.evidence_check.specs.Refusals.{IsCiteRefused, IsNumberRefused, IsRefused, IsSpareRefused};
ghost use Rattle.evidence_check.specs.Spares.{spares_of};
ghost use Rattle.evidence_check.specs.Supported.{AllFitOthers, AreLinks, IsSupported};
ghost use Rattle.evidence_format.specs.Evidence.{AreRanks, IsWellFormed, clash, counter, entails, timeline};
ghost use Rattle.evidence_format.specs.View.{plain};
ghost use Rattle.net_core.specs.Clashes.{IsMinimalClash};
ghost use Rattle.net_core.specs.Entailment.{AreIntervals, CanFail, Follows};
ghost use Rattle.net_core.specs.Limits.{max_intervals, max_links};
ghost use Rattle.net_core.specs.Nets.{intervals};
ghost use Rattle.net_core.specs.Ranks.{pairs_of};
ghost use Rattle.net_core.specs.declared.rels.Rel.{Rel as RelOf};
ghost use Rattle.net_core.specs.declared.step.Step.{Step as StepOf};
ghost use Rattle.std.specs.List.{All};
ghost use Rattle.std.specs.Prelude.{IfErr, IfOk, IsOk, List, OnOk, length, map, ℕ, ◌≡◌, ◌≤◌, ◌↔◌};

use crate::closed_walks::check_closed;
use crate::demands::Demands;
use crate::refusal::{Claim, Reason, Refused};
use crate::spares::{Spares, spare_at};
use crate::timeline::{AskedLinks, fit};
use crate::walks::prove_all;
use evidence_format::Evidence;
use net_core::{Net, Ranks, Rel, Step, Walk, atoms_of, ends_at, holds};

/// Checks evidence against the net of a document. It takes no memory.
///
/// # Errors
///
/// The first part that is refused, and the first reason there. A refusal comes exactly where the evidence is not supported.
pub fn verify(net: &Net, evidence: &Evidence) -> Result<Claim, Refused>
    requires { IsWellFormed (plain evidence.now) }
    ensures supported { IsOk result ↔ IsSupported net.now (plain evidence.now) }
    ensures ok { IfOk result (λ claim. claim ≡ claim_of (plain evidence.now)) }
    ensures err { IfErr result (IsRefused net.now (plain evidence.now)) }
    // What supported evidence shows is true.
    ensures sound { IfOk result (λ claim. ShowsTruth net.now (plain evidence.now)) }
    // An entailment: the relation holds in every timeline that fits, whether or not there is one.
    ensures follows { (a b : ℕ) (r : RelOf) (walks : List (List StepOf)) → plain evidence.now ≡ entails a r b walks → IfOk result (λ claim. Follows net.now a r b) }
    // A counterexample: the relation is false in some timeline that fits.
    ensures can_fail { (a b : ℕ) (r : RelOf) (ranks : List (ℕ × ℕ)) → plain evidence.now ≡ counter a r b ranks → IfOk result (λ claim. CanFail net.now a r b) }
    // A clash: its links cannot all be true, and any one of them left out, they can.
    ensures clashes { (cites : List ℕ) (walk : List StepOf) (spares : List (List (ℕ × ℕ))) → plain evidence.now ≡ clash cites walk spares → IfOk result (λ claim. IsMinimalClash net.now cites) }
{
    // Walks alone are checked without what the net asks of a timeline.
    if let Evidence::Entails { a, rel, b, walks } = evidence {
        return check_entailment(net, *a, *rel, *b, walks.as_slice());
    }
    let mut demands = Demands::new();
    demands.add(net);
    verify_by(net, &demands, evidence)
}

/// The same by what the net asks of a timeline, which is made once for several claims.
pub fn verify_by(net: &Net, demands: &Demands, evidence: &Evidence) -> Result<Claim, Refused>
    requires demands { AreDemands net.now demands.now }
    requires well_formed { IsWellFormed (plain evidence.now) }
    ensures claim { IfOk result (λ claim. claim ≡ claim_of (plain evidence.now)) }
    ensures ok { OnOk result (IsSupported net.now (plain evidence.now)) }
    ensures err { IfErr result (IsRefused net.now (plain evidence.now)) }
{
    match evidence {
        Evidence::Timeline { ranks } => check_timeline(net, demands, ranks),
        Evidence::Entails { a, rel, b, walks } => {
            check_entailment(net, *a, *rel, *b, walks.as_slice())
        }
        Evidence::Counter { a, rel, b, ranks } => {
            check_counterexample(net, demands, *a, *rel, *b, ranks)
        }
        Evidence::Clash {
            cites,
            walk,
            spares,
        } => check_clash(
            net,
            demands,
            cites.as_slice(),
            walk.as_slice(),
            Spares::Listed(spares.as_slice()),
        ),
    }
}

/// A timeline that is to fit the net.
#[tactic(auto, using(net_core::proofs::RankLaws::ranks_again))]
fn check_timeline(net: &Net, demands: &Demands, ranks: &Ranks) -> Result<Claim, Refused>
    requires demands { AreDemands net.now demands.now }
    requires well_formed { IsWellFormed (timeline (pairs_of ranks.now)) }
    ensures claim { IfOk result (λ claim. claim ≡ Claim.Fits) }
    ensures ok { OnOk result (IsSupported net.now (timeline (pairs_of ranks.now))) }
    ensures err { IfErr result (IsRefused net.now (timeline (pairs_of ranks.now))) }
{
    match fit(net, demands, ranks.as_slice(), AskedLinks::All) {
        Ok(()) => Ok(Claim::Fits),
        Err(reason) => Err(Refused { part: 1, reason }),
    }
}

/// Walks that are to prove a relation between two intervals.
fn check_entailment(net: &Net, a: u32, rel: Rel, b: u32, walks: &[Walk]) -> Result<Claim, Refused>
    requires { IsWellFormed (entails a rel b walks.now) }
    ensures claim { IfOk result (λ claim. claim ≡ Claim.Entails) }
    ensures ok { OnOk result (IsSupported net.now (entails a rel b walks.now)) }
    ensures err { IfErr result (IsRefused net.now (entails a rel b walks.now)) }
{
    check_numbers(net, a, b)?;
    prove_all(net, atoms_of(rel, a, b), walks)?;
    Ok(Claim::Entails)
}

/// Ranks that are to fit the net, and to make a relation between two intervals false.
#[tactic(auto, using(net_core::proofs::RankLaws::ranks_again))]
fn check_counterexample(
    net: &Net,
    demands: &Demands,
    a: u32,
    rel: Rel,
    b: u32,
    ranks: &Ranks,
) -> Result<Claim, Refused>
    requires demands { AreDemands net.now demands.now }
    requires well_formed { IsWellFormed (counter a rel b (pairs_of ranks.now)) }
    ensures claim { IfOk result (λ claim. claim ≡ Claim.CanFail) }
    ensures ok { OnOk result (IsSupported net.now (counter a rel b (pairs_of ranks.now))) }
    ensures err { IfErr result (IsRefused net.now (counter a rel b (pairs_of ranks.now))) }
{
    check_numbers(net, a, b)?;
    if let Err(reason) = fit(net, demands, ranks.as_slice(), AskedLinks::All) {
        return Err(Refused { part: 1, reason });
    }
    if holds(
        rel,
        ends_at(ranks.as_slice(), a),
        ends_at(ranks.as_slice(), b),
    ) {
        return Err(Refused {
            part: 2,
            reason: Reason::Holds,
        });
    }
    Ok(Claim::CanFail)
}

/// Ok where both numbers are those of intervals of the net.
fn check_numbers(net: &Net, a: u32, b: u32) -> Result<(), Refused>
    ensures ok { OnOk result (AreIntervals net.now a b) }
    ensures few { OnOk result (intervals net.now ≤ max_intervals) }
    ensures err { IfErr result (IsNumberRefused net.now a b) }
{
    let count = net.intervals();
    let number = if a < count { b } else { a };
    if number < count {
        return Ok(());
    }
    Err(Refused {
        part: 0,
        reason: Reason::Number { number },
    })
}

/// Links that are to clash, a walk that is to be closed and to go over exactly these, and timelines that are to fit with
/// all but one.
pub fn check_clash(
    net: &Net,
    demands: &Demands,
    cites: &[u32],
    walk: &[Step],
    spares: Spares<'_>,
) -> Result<Claim, Refused>
    requires demands { AreDemands net.now demands.now }
    requires well_formed { IsWellFormed (clash cites.now walk.now (map pairs_of (spares_of spares))) }
    ensures claim { IfOk result (λ claim. claim ≡ Claim.Clashes) }
    ensures ok { OnOk result (IsSupported net.now (clash cites.now walk.now (map pairs_of (spares_of spares.entry)))) }
    ensures err { IfErr result (IsRefused net.now (clash cites.now walk.now (map pairs_of (spares_of spares.entry)))) }
{
    check_cites(net, cites)?;
    if let Err(reason) = check_closed(net, cites, walk) {
        return Err(Refused { part: 1, reason });
    }
    check_spares(net, demands, cites, spares)?;
    Ok(Claim::Clashes)
}

/// Ok where all cites are numbers of links of the net.
fn check_cites(net: &Net, cites: &[u32]) -> Result<(), Refused>
    ensures ok { OnOk result (AreLinks net.now cites.now) }
    ensures few { OnOk result (length net.now.links ≤ max_links) }
    ensures err { IfErr result (IsCiteRefused net.now cites.now) }
{
    let count = net.links();
    for cite in cites {
        if *cite >= count {
            return Err(Refused {
                part: 0,
                reason: Reason::Number { number: *cite },
            });
        }
    }
    Ok(())
}

/// Ok where each timeline fits with all cited links but its own.
fn check_spares(
    net: &Net,
    demands: &Demands,
    cites: &[u32],
    spares: Spares<'_>,
) -> Result<(), Refused>
    requires demands { AreDemands net.now demands.now }
    requires cites { AreRisingLinks net.now cites.now }
    requires few { length cites.now ≤ max_links }
    requires one_each { length (spares_of spares) ≡ length cites.now }
    requires ranks { All AreRanks (map pairs_of (spares_of spares)) }
    ensures ok { OnOk result (AllFitOthers net.now cites.now (map pairs_of (spares_of spares.entry))) }
    ensures err { IfErr result (IsSpareRefused net.now cites.now (map pairs_of (spares_of spares.entry))) }
{
    for i in 0..cites.len() {
        let own = cites[i];
        if let Err(reason) = fit(
            net,
            demands,
            spare_at(spares, i),
            AskedLinks::Others { cites, own },
        ) {
            return Err(Refused {
                part: i as u32 + 2,
                reason,
            });
        }
    }
    Ok(())
}

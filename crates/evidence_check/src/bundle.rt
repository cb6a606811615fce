//! Checking evidence of several claims, one after another.
ghost use Rattle.evidence_check.specs.Bundles.{AreSupported, IsFirstRefused};
ghost use Rattle.evidence_check.specs.Claims.{ShowsTruth};
ghost use Rattle.evidence_check.specs.Demands.{AreDemands};
ghost use Rattle.evidence_check.specs.Supported.{IsSupported};
ghost use Rattle.evidence_format.specs.Evidence.{IsWellFormed, PlainEvidence};
ghost use Rattle.evidence_format.specs.View.{plain};
ghost use Rattle.std.specs.List.{All};
ghost use Rattle.std.specs.Prelude.{◌≡◌, ◌↔◌, ◌++◌, ◌∷◌, [], IfErr, IsOk, List as ListOf, OnOk, length, map};

use crate::checker::verify_by;
use crate::demands::Demands;
use crate::refusal::RefusedClaim;
use evidence_format::{Bundle, Evidence};
use net_core::Net;

/// Checks the evidence of each claim against the net of a document. It takes no memory.
///
/// # Errors
///
/// The first claim whose evidence is refused, and why it is. A refusal comes exactly where not every claim is supported.
pub fn verify_all(net: &Net, bundle: &Bundle) -> Result<(), RefusedClaim>
    requires { All IsWellFormed (map plain bundle.now) }
    ensures supported { IsOk result ↔ AreSupported net.now (map plain bundle.now) }
    ensures err { IfErr result (IsFirstRefused net.now (map plain bundle.now)) }
    // What the evidence of each claim shows is true.
    ensures sound { OnOk result (All (ShowsTruth net.now) (map plain bundle.now)) }
{
    let mut demands = Demands::new();
    demands.add(net);
    for k in 0..bundle.count() {
        verify_next(net, &demands, k, bundle.claim(k))?;
    }
    Ok(())
}

/// Checks the evidence of a claim against the net of a document, where this number of claims before it are supported: `claim` is
/// its number, counted from 0. What the net asks of a timeline is made once for all claims. It takes no memory.
///
/// # Errors
///
/// The first claim whose evidence is refused, this one, and why it is. A refusal comes exactly where it is not supported.
pub fn verify_next(
    net: &Net,
    demands: &Demands,
    claim: u32,
    evidence: &Evidence,
) -> Result<(), RefusedClaim>
    requires demands { AreDemands net.now demands.now }
    requires well_formed { IsWellFormed (plain evidence.now) }
    ensures supported { IsOk result ↔ IsSupported net.now (plain evidence.now) }
    ensures err { (es : ListOf PlainEvidence) → AreSupported net.now es → length es ≡ claim → IfErr result (IsFirstRefused net.now (es ++ plain evidence.now ∷ [])) }
    // What the evidence of the claim shows is true.
    ensures sound { OnOk result (ShowsTruth net.now (plain evidence.now)) }
{
    match verify_by(net, demands, evidence) {
        Ok(_) => Ok(()),
        Err(refused) => Err(RefusedClaim { claim, refused }),
    }
}

//! Checking a claim as it is read.
ghost use Rattle.evidence_check.specs.Bundles.{AreSupported, IsFirstRefused};
ghost use Rattle.evidence_check.specs.Claims.{ShowsTruth};
ghost use Rattle.evidence_check.specs.Demands.{AreDemands};
ghost use Rattle.evidence_check.specs.Supported.{IsSupported};
ghost use Rattle.evidence_format.specs.Evidence.{IsWellFormed, PlainEvidence};
ghost use Rattle.evidence_format.specs.View.{plain_body};
ghost use Rattle.std.specs.Prelude.{◌≡◌, ◌↔◌, ◌++◌, ◌∷◌, [], IfErr, IsOk, List as ListOf, OnOk, length};

use crate::bundle::verify_next;
use crate::checker::check_clash;
use crate::demands::Demands;
use crate::refusal::RefusedClaim;
use crate::spares::Spares;
use evidence_format::Body;
use net_core::Net;

/// Checks a claim as it is read against the net of a document, where this number of claims before it are supported: `claim` is
/// its number, counted from 0. What the net asks of a timeline is made once for all claims. It takes no memory.
///
/// # Errors
///
/// The first claim whose evidence is refused, this one, and why it is. A refusal comes exactly where it is not supported.
pub fn verify_body(
    net: &Net,
    demands: &Demands,
    claim: u32,
    body: &Body,
) -> Result<(), RefusedClaim>
    requires demands { AreDemands net.now demands.now }
    requires well_formed { IsWellFormed (plain_body body.now) }
    ensures supported { IsOk result ↔ IsSupported net.now (plain_body body.now) }
    ensures err { (es : ListOf PlainEvidence) → AreSupported net.now es → length es ≡ claim → IfErr result (IsFirstRefused net.now (es ++ plain_body body.now ∷ [])) }
    // What the evidence of the claim shows is true.
    ensures sound { OnOk result (ShowsTruth net.now (plain_body body.now)) }
{
    match body {
        Body::Whole(evidence) => verify_next(net, demands, claim, evidence),
        Body::Clash {
            cites,
            walk,
            spares,
        } => {
            let spares = Spares::Joined(spares);
            match check_clash(net, demands, cites.as_slice(), walk.as_slice(), spares) {
                Ok(_) => Ok(()),
                Err(refused) => Err(RefusedClaim { claim, refused }),
            }
        }
    }
}

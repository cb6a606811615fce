//! Evidence of several claims.
ghost use Rattle.evidence_format.specs.Bundles.{IsCount, IsTextOfEither, ReadsBundle, RefusesText, TellsBadLineOfEither};
ghost use Rattle.evidence_format.specs.Evidence.{IsWellFormed, PlainEvidence};
ghost use Rattle.evidence_format.specs.View.{plain};
ghost use Rattle.net_core.specs.Limits.{max_evidence};
ghost use Rattle.std.specs.List.{All};
ghost use Rattle.std.specs.Prelude.{◌≡◌, ◌<◌, ◌≤◌, ◌^◌, ◌+◌, [], ◌∷◌, ◌++◌, length, map, slice_index_or, IfErr, IfOk, List as ListOf, OnOk, OnErr};

use crate::{Evidence, Unread};
use line_texts::ReadEvidence;
use net_core::Memory;
use std::alloc::Global;
use std::marker::Model;

/// Evidence of several claims, in their order: at least one, and at most 4,294,967,295.
#[derive(Drop)]
pub struct Bundle {
    claims: Vec<Evidence>,
}

impl Model for Bundle {
    ghost use Rattle.evidence_format.specs.Bundles.{IsCount};
    ghost use Rattle.evidence_format.specs.declared.evidence.Evidence.{Evidence as EvidenceOf};
    ghost use Rattle.std.specs.Prelude.{List as ListOf, length};

    ghost Value = { ListOf EvidenceOf };

    ghost view = { λ a. a.claims.items };

    ghost invariant = { λ a. IsCount (length a.claims.items) };
}

impl Bundle {
    /// The bundle of one claim.
    ///
    /// # Errors
    ///
    /// Out of memory.
    pub fn one(alloc: Global, evidence: Evidence) -> Result<Bundle, Memory>
        ensures { IfOk result (λ bundle. bundle ≡ evidence ∷ []) }
    {
        let mut claims = Vec::new(alloc);
        claims.push(evidence)?;
        Ok(Bundle { claims })
    }

    /// The bundle of the claims of a `Vec`. It takes no memory.
    pub fn from_vec(claims: Vec<Evidence>) -> Bundle
        requires { IsCount (length claims.items) }
        ensures { result ≡ claims.items }
    {
        Bundle { claims }
    }

    /// How many claims there are.
    pub fn count(&self) -> u32
        ensures count { result ≡ length self.now }
        ensures some { 0 < result }
    {
        self.claims.len() as u32
    }

    /// The claim of this number, counted from 0.
    pub fn claim(&self, k: u32) -> &Evidence
        requires { k < length self.now }
        ensures { result.now ≡ slice_index_or self.now k result.now }
    {
        &self.claims[k as usize]
    }

    /// The claims, in order.
    pub fn as_slice(&self) -> &[Evidence]
        ensures claims { result.now ≡ self.now }
        ensures count { IsCount (length self.now) }
    {
        self.claims.as_slice()
    }

    /// Appends the claims of another bundle. After `Memory` this one is unchanged, and the other one is given up.
    ///
    /// # Errors
    ///
    /// Out of memory.
    pub fn append(&mut self, other: Bundle) -> Result<(), Memory>
        requires { length self.old + length other < 2 ^ 32 }
        ensures ok { OnOk result (self.new ≡ self.old ++ other) }
        ensures err { OnErr result (self.new ≡ self.old) }
    {
        let mut claims = other.claims;
        self.claims.append(&mut claims)?;
        Ok(())
    }
}

/// The claims whose text this is. A text of version 1 is that of one claim. It takes time in the length of the text, and
/// memory in the length of what was read.
///
/// # Errors
///
/// `BadLine` comes exactly where it is the text of no claims, in neither version. Its line is the first one with which
/// the lines so far begin no text of either version.
pub fn read_bundle(alloc: Global, text: &[u8]) -> Result<Bundle, ReadEvidence>
    requires { length text.now ≤ max_evidence }
    ensures ok { IfOk result (λ bundle. IsTextOfEither (map plain bundle) text.now) }
    ensures only { (es : ListOf PlainEvidence) → IsTextOfEither es text.now → ReadsBundle es result }
    ensures err { IfErr result (TellsBadLineOfEither text.now) }
    ensures few { IfOk result (λ bundle. length bundle ≤ length text.now) }
    ensures good { IfOk result (λ bundle. All IsWellFormed (map plain bundle)) }
{
    let claims = kept_claims(alloc, text)?;
    Ok(Bundle::from_vec(claims))
}

/// The claims of a text, all kept. Nothing is reserved by their count, which comes from a stranger.
fn kept_claims(alloc: Global, text: &[u8]) -> Result<Vec<Evidence>, ReadEvidence>
    requires { length text.now ≤ max_evidence }
    ensures ok { IfOk result (λ claims. IsTextOfEither (map plain claims.items) text.now) }
    ensures err { IfErr result (RefusesText text.now) }
{
    let mut unread = Unread::of_text(text)?;
    let mut claims = Vec::new(alloc);
    for _ in 0..unread.left {
        let claim = unread.next_claim(alloc)?;
        let Ok(evidence) = claim.into_evidence(alloc) else {
            return Err(ReadEvidence::Memory);
        };
        let Ok(()) = claims.push(evidence) else {
            return Err(ReadEvidence::Memory);
        };
    }
    unread.finish()?;
    Ok(claims)
}

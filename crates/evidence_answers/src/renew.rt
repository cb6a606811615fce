//! The command `renew`: evidence of either version as a text of version 2.
ghost use Rattle.evidence_format.specs.Bundles.{AreBodies, AreClaims, IsBundleText};
ghost use Rattle.evidence_format.specs.Evidence.{PlainEvidence};
ghost use Rattle.std.specs.Prelude.{◌≡◌, IfOk, List as ListOf};

use crate::malformed::malformed_answer;
use evidence_format::{Bodies, ReadEvidence, read_bodies, write_bodies};
use net_core::Memory;
use runs::{Answer, FileQuery, Finding};
use std::alloc::{AllocError, Global};

/// The command `renew`.
#[derive(Clone, Copy)]
pub struct Renew;

impl FileQuery for Renew {
    ghost use Rattle.evidence_answers.specs.Renew.{OfRenew};
    ghost use Rattle.net_core.specs.Limits.{max_evidence};

    ghost says = { λ _. OfRenew };

    ghost limit = { max_evidence };

    /// The text of version 2 of the claims of this evidence, or its bad line.
    fn answer(&self, alloc: Global, bytes: &[u8]) -> Result<Answer, AllocError> {
        match read_bodies(alloc, bytes) {
            Ok(bodies) => renewed(alloc, bodies),
            Err(ReadEvidence::BadLine { line }) => malformed_answer(alloc, b"evidence line ", line),
            Err(ReadEvidence::Memory) => Err(AllocError),
        }
    }
}

/// The text of version 2 of the claims with these bodies.
fn renewed(alloc: Global, bodies: Bodies<'_>) -> Result<Answer, AllocError>
    ensures finding { IfOk result (λ answer. answer.finding ≡ Finding.Done) }
    ensures text { IfOk result (λ answer. (es : ListOf PlainEvidence) → AreClaims es → AreBodies es bodies.entry → IsBundleText es answer.text.items) }
{
    Ok(Answer::done(write_bodies(alloc, bodies)?.into_vec()))
}

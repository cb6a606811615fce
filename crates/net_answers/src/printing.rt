//! Evidence as it is printed.
ghost use Rattle.evidence_format.specs.Bundles.{IsClaimText};
ghost use Rattle.evidence_format.specs.Evidence.{IsWellFormed};
ghost use Rattle.evidence_format.specs.View.{plain};
ghost use Rattle.std.specs.Prelude.{IfOk};

use evidence_format::{Evidence, write_claim};
use std::alloc::{AllocError, Global};

/// The text of well-formed evidence, of version 2, with one claim.
///
/// # Errors
///
/// Out of memory.
pub fn evidence_text(alloc: Global, evidence: Evidence) -> Result<Vec<u8>, AllocError>
    requires { IsWellFormed (plain evidence) }
    ensures { IfOk result (λ text. IsClaimText (plain evidence) text.items) }
{
    Ok(write_claim(alloc, &evidence)?.into_vec())
}

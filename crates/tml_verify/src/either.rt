//! What is asked of a document and a file that is evidence of it, or seconds.
use answers::JudgedQuery;
use evidence_answers::{Confirm, Verify};
use runs::Answer;
use std::alloc::{AllocError, Global};
use tml_refs::Document;

/// What evidence or seconds show of a document: what `confirm` answers where the file begins with the first line of
/// seconds, and else what `verify` answers.
#[derive(Clone, Copy)]
pub struct EvidenceOrSeconds;

impl JudgedQuery for EvidenceOrSeconds {
    ghost use Rattle.net_core.specs.Limits.{max_evidence};
    ghost use Rattle.tml_verify.specs.Either.{OfEither};

    ghost says = { λ _. OfEither };

    ghost limit = { max_evidence };

    /// What a file with these bytes shows of the document, or why it is refused.
    fn answer(
        &self,
        alloc: Global,
        document: &Document<'_>,
        bytes: &[u8],
    ) -> Result<Answer, AllocError> {
        if bytes.starts_with(b"tml-seconds 1\n") {
            Confirm.answer(alloc, document, bytes)
        } else {
            Verify.answer(alloc, document, bytes)
        }
    }
}

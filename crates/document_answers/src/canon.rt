//! The command `canon`: the canonical text of a document.
use answers::refusal;
use runs::{Answer, FileQuery};
use std::alloc::{AllocError, Global};
use tml_canon::canonical_text;

/// The command `canon`.
#[derive(Clone, Copy)]
pub struct Canon;

impl FileQuery for Canon {
    ghost use Rattle.document_answers.specs.Canon.{OfCanon};
    ghost use Rattle.net_core.specs.Limits.{max_document};

    ghost says = { λ _. OfCanon };

    ghost limit = { max_document };

    /// The canonical text of the document, or its first fault.
    fn answer(&self, alloc: Global, bytes: &[u8]) -> Result<Answer, AllocError> {
        match canonical_text(alloc, bytes) {
            Ok(text) => Ok(Answer::done(text.into_vec())),
            Err(fault) => refusal(alloc, fault),
        }
    }
}

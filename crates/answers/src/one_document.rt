//! Replies by what one document says.
ghost use Rattle.answers.specs.Documents.{document_rows};
ghost use Rattle.net_core.specs.Limits.{max_document};
ghost use Rattle.std.specs.Prelude.{◌≢◌, [], ◌∷◌, IfOk};
ghost use Rattle.runs.specs.Replied.{IsReplyTo};
ghost use Rattle.runs.specs.View.{finding_status, status_of, text_of};

use crate::refusing::refusal;
use crate::role::DOC;
use runs::{Answer, FileQuery, Reply, Status, reply_of_file};
use std::alloc::{AllocError, Global};
use tml_accept::accept;
use tml_io::Inputs;
use tml_refs::Document;

/// What is asked of an accepted document.
pub trait DocumentQuery {
    ghost use Rattle.std.specs.Prelude.{List, ℕ};
    ghost use Rattle.tml_refs.specs.Documents.{PlainDocument};
    ghost use Rattle.runs.specs.declared.status.Status.{Status};

    /// The answers to what a document says.
    ghost says: { Self → PlainDocument → Status → List ℕ → Type 0 };

    /// The answer to what this document says.
    ///
    /// # Errors
    ///
    /// Out of memory.
    fn answer(&self, alloc: Global, document: &Document<'_>) -> Result<Answer, AllocError>
        ensures { IfOk result (λ answer. says self.now document.now (finding_status answer.finding) answer.text.items) };
}

/// What is asked of an accepted document, as what is asked of a file: the first fault of another file is its answer.
#[derive(Drop)]
struct OfContents<'a, A> {
    asked: &'a A,
}

impl<A: DocumentQuery> FileQuery for OfContents<'_, A> {
    ghost use Rattle.answers.specs.Documents.{of_contents};
    ghost use Rattle.net_core.specs.Limits.{max_document};

    ghost says = { λ of. of_contents (A.says of.asked.now) };

    ghost limit = { max_document };

    fn answer(&self, alloc: Global, bytes: &[u8]) -> Result<Answer, AllocError> {
        match accept(alloc, bytes) {
            Ok(document) => self.asked.answer(alloc, &document),
            Err(why) => refusal(alloc, why),
        }
    }
}

/// The reply to what is asked of the document of a name.
pub fn reply_of_document<A: DocumentQuery, I: Inputs>(
    alloc: Global,
    asked: &A,
    name: &str,
    inputs: &mut I,
) -> Reply
    ensures reply { IsReplyTo I.known (document_rows (A.says asked.now) name.now) (max_document ∷ [])
        inputs.old inputs.new (status_of result) (text_of result) }
    ensures usage { status_of result ≢ Status.Usage }
{
    reply_of_file(alloc, &OfContents { asked }, DOC, name, inputs)
}

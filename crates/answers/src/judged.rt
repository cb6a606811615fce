//! Replies by a document and another file.
ghost use Rattle.answers.specs.Judged.{documents, judged_rows};
ghost use Rattle.net_core.specs.Limits.{max_document};
ghost use Rattle.std.specs.Prelude.{◌≢◌, ◌≤◌, [], ◌∷◌, length, IfErr, IfOk};
ghost use Rattle.tml_accept.specs.Acceptance.{Says};
ghost use Rattle.runs.specs.Replied.{IsReplyTo};
ghost use Rattle.runs.specs.Roles.{IsRole, file_of};
ghost use Rattle.runs.specs.TwoFiles.{CannotJudge};
ghost use Rattle.runs.specs.View.{finding_status, status_of, text_of};

use crate::refusing::refusal;
use crate::role::DOC;
use runs::{Answer, Reply, Role, Status, read};
use std::alloc::{AllocError, Global};
use tml_accept::accept;
use tml_io::Inputs;
use tml_refs::Document;

/// What is asked of an accepted document and of another file.
pub trait JudgedQuery {
    ghost use Rattle.std.specs.Prelude.{List, ℕ};
    ghost use Rattle.tml_refs.specs.Documents.{PlainDocument};
    ghost use Rattle.runs.specs.declared.status.Status.{Status};

    /// The answers to the contents of the other file, by what the document says.
    ghost says: { Self → PlainDocument → List ℕ → Status → List ℕ → Type 0 };

    /// How many bytes the other file has at most.
    ghost limit: { ℕ };

    /// The answer to the other file with these bytes.
    ///
    /// # Errors
    ///
    /// Out of memory.
    fn answer(
        &self,
        alloc: Global,
        document: &Document<'_>,
        bytes: &[u8],
    ) -> Result<Answer, AllocError>
        requires { length bytes.now ≤ limit }
        ensures { IfOk result (λ answer. says self.now document.now bytes.now (finding_status answer.finding) answer.text.items) };
}

/// What a document with these bytes says.
///
/// # Errors
///
/// The reply that the document has a fault, or that there is no memory.
fn document_of(alloc: Global, doc: &[u8]) -> Result<Document<'_>, Reply>
    requires { length doc.now ≤ max_document }
    ensures ok { IfOk result (Says doc.now) }
    ensures err { IfErr result (λ reply. CannotJudge documents doc.now (status_of reply) (text_of reply)) }
{
    match accept(alloc, doc) {
        Ok(document) => Ok(document),
        Err(why) => Err(Reply::from_answer(refusal(alloc, why))),
    }
}

/// The reply to what is asked of a document and of another file, by their names. The other file is read only if the
/// document has no fault.
pub fn reply_of_judged<A: JudgedQuery, I: Inputs>(
    alloc: Global,
    asked: &A,
    name: &str,
    role: Role,
    other: &str,
    inputs: &mut I,
) -> Reply
    requires role { IsRole role }
    requires limit { role.limit ≤ A.limit }
    ensures reply { IsReplyTo I.known (judged_rows name.now (file_of role other.now) (A.says asked.now)) (max_document ∷ role.limit ∷ [])
        inputs.old inputs.new (status_of result) (text_of result) }
    ensures usage { status_of result ≢ Status.Usage }
{
    let doc = match read(alloc, inputs, DOC, name) {
        Ok(doc) => doc,
        Err(reply) => return reply,
    };
    let document = match document_of(alloc, doc.as_slice()) {
        Ok(document) => document,
        Err(reply) => return reply,
    };
    match read(alloc, inputs, role, other) {
        Ok(text) => Reply::from_answer(asked.answer(alloc, &document, text.as_slice())),
        Err(reply) => reply,
    }
}

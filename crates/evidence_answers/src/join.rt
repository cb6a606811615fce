//! The command `join`: the claims of two files of evidence as one text.
ghost use Rattle.evidence_answers.specs.Join.{OfSecond, evidence, join_rows};
ghost use Rattle.evidence_format.specs.Bundles.{AreBodies, AreClaims, IsTextOfEither};
ghost use Rattle.evidence_format.specs.Evidence.{PlainEvidence};
ghost use Rattle.net_core.specs.Limits.{max_evidence};
ghost use Rattle.std.specs.Prelude.{◌≢◌, ◌≤◌, [], ◌∷◌, length, IfErr, IfOk, List as ListOf};
ghost use Rattle.runs.specs.Replied.{IsReplyTo};
ghost use Rattle.runs.specs.TwoFiles.{CannotJudge};
ghost use Rattle.runs.specs.View.{finding_status, status_of, text_of};

use crate::malformed::malformed_answer;
use crate::role::{EVIDENCE, SECOND};
use evidence_format::{Bodies, ReadEvidence, read_bodies, write_both};
use runs::{Answer, Reply, Status, read};
use std::alloc::{AllocError, Global};
use tml_io::Inputs;

/// The reply to `join`: the text of version 2 of the claims of one file of evidence and, after them, those of another
/// one. The second file is read only if the first one is evidence.
pub fn reply_of_join<I: Inputs>(alloc: Global, name: &str, other: &str, inputs: &mut I) -> Reply
    ensures reply { IsReplyTo I.known (join_rows name.now other.now) (max_evidence ∷ max_evidence ∷ [])
        inputs.old inputs.new (status_of result) (text_of result) }
    ensures usage { status_of result ≢ Status.Usage }
{
    let first = match read(alloc, inputs, EVIDENCE, name) {
        Ok(first) => first,
        Err(reply) => return reply,
    };
    let bodies = match bodies_of(alloc, first.as_slice()) {
        Ok(bodies) => bodies,
        Err(reply) => return reply,
    };
    match read(alloc, inputs, SECOND, other) {
        Ok(second) => Reply::from_answer(joined(alloc, bodies, second.as_slice())),
        Err(reply) => reply,
    }
}

/// The bodies of the claims of the first file.
///
/// # Errors
///
/// The reply that it is malformed, or that there is no memory.
fn bodies_of(alloc: Global, text: &[u8]) -> Result<Bodies<'_>, Reply>
    requires { length text.now ≤ max_evidence }
    ensures ok { IfOk result (λ bodies. (es : ListOf PlainEvidence) × IsTextOfEither es text.now × AreBodies es bodies) }
    ensures few { IfOk result (λ bodies. bodies.count ≤ length text.now) }
    ensures err { IfErr result (λ reply. CannotJudge evidence text.now (status_of reply) (text_of reply)) }
{
    match read_bodies(alloc, text) {
        Ok(bodies) => Ok(bodies),
        Err(ReadEvidence::BadLine { line }) => {
            let answer = malformed_answer(alloc, b"evidence line ", line);
            Err(Reply::from_answer(answer))
        }
        Err(ReadEvidence::Memory) => Err(Reply::NoMemory),
    }
}

/// The answer to the second file, by the bodies of the claims of the first one.
fn joined(alloc: Global, first: Bodies<'_>, second: &[u8]) -> Result<Answer, AllocError>
    requires second { length second.now ≤ max_evidence }
    requires few { first.count ≤ max_evidence }
    ensures { IfOk result (λ answer. (es : ListOf PlainEvidence) → AreClaims es → AreBodies es first.entry
        → OfSecond es second.now (finding_status answer.finding) answer.text.items) }
{
    let more = match read_bodies(alloc, second) {
        Ok(more) => more,
        Err(ReadEvidence::BadLine { line }) => {
            return malformed_answer(alloc, b"second line ", line);
        }
        Err(ReadEvidence::Memory) => return Err(AllocError),
    };
    let text = write_both(alloc, first, more)?;
    Ok(Answer::done(text.into_vec()))
}

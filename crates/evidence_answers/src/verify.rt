//! The command `verify`: what evidence of a document shows.
ghost use Rattle.evidence_answers.specs.Texts as texts;
ghost use Rattle.evidence_answers.specs.Verify.{OfVerify};
ghost use Rattle.net_core.specs.Limits.{max_evidence};
ghost use Rattle.std.specs.Prelude.{◌≡◌, ◌≤◌, ◌++◌, length, IfOk, OnOk};
ghost use Rattle.runs.specs.View.{finding_status};

use crate::judged::judged_claims;
use crate::malformed::malformed_answer;
use answers::{JudgedQuery, push_numbered, push_prefix};
use evidence_check::{Reason, RefusedClaim};
use evidence_format::ReadEvidence;
use net_build::net_of;
use runs::{Answer, Finding};
use std::alloc::{AllocError, Global};
use tml_refs::Document;

/// The command `verify`.
#[derive(Clone, Copy)]
pub struct Verify;

impl JudgedQuery for Verify {
    ghost use Rattle.evidence_answers.specs.Verify.{OfVerify};
    ghost use Rattle.net_core.specs.Limits.{max_evidence};

    ghost says = { λ _. OfVerify };

    ghost limit = { max_evidence };

    /// What evidence with these bytes shows of the document, or why it is refused.
    fn answer(
        &self,
        alloc: Global,
        document: &Document<'_>,
        bytes: &[u8],
    ) -> Result<Answer, AllocError> {
        verdict(alloc, document, bytes)
    }
}

/// The answer to evidence with these bytes, by its document.
pub fn verdict(alloc: Global, document: &Document<'_>, text: &[u8]) -> Result<Answer, AllocError>
    requires { length text.now ≤ max_evidence }
    ensures { IfOk result (λ answer. OfVerify document.now text.now (finding_status answer.finding) answer.text.items) }
{
    let net = net_of(alloc, document)?;
    match judged_claims(alloc, document, &net, text) {
        Ok(judged) => match judged.refused {
            None => Ok(Answer::done(judged.lines)),
            Some(refused) => refused_answer(alloc, refused),
        },
        Err(ReadEvidence::BadLine { line }) => malformed_answer(alloc, b"evidence line ", line),
        Err(ReadEvidence::Memory) => Err(AllocError),
    }
}

/// The answer to refused evidence: the claim, the part, and the reason.
fn refused_answer(alloc: Global, refused: RefusedClaim) -> Result<Answer, AllocError>
    ensures finding { IfOk result (λ answer. answer.finding ≡ Finding.EvidenceFault) }
    ensures text { IfOk result (λ answer. answer.text.items ≡ texts.refusal_line refused) }
{
    let mut text = Vec::new(alloc);
    push_prefix(&mut text, b"evidence claim ", refused.claim)?;
    push_prefix(&mut text, b"part ", refused.refused.part)?;
    push_reason(&mut text, refused.refused.reason)?;
    Ok(Answer {
        finding: Finding::EvidenceFault,
        text,
    })
}

/// Appends a reason, with its numbers.
fn push_reason(out: &mut Vec<u8>, reason: Reason) -> Result<(), AllocError>
    ensures { OnOk result (out.new.items ≡ out.old.items ++ texts.reason_text reason) }
{
    match reason {
        Reason::Number { number } => push_numbered(out, b"Number ", u64::from(number)),
        Reason::Size { size } => push_numbered(out, b"Size ", u64::from(size)),
        Reason::Order { interval } => push_numbered(out, b"Order ", u64::from(interval)),
        Reason::Link { link } => push_numbered(out, b"Link ", u64::from(link)),
        Reason::Calendar { from, to } => {
            push_prefix(out, b"Calendar ", from)?;
            push_numbered(out, b"", u64::from(to))
        }
        Reason::Step { step } => push_numbered(out, b"Step ", u64::from(step)),
        Reason::End => out.extend_from_slice(b"End\n"),
        Reason::Weak => out.extend_from_slice(b"Weak\n"),
        Reason::Cited { link } => push_numbered(out, b"Cited ", u64::from(link)),
        Reason::Holds => out.extend_from_slice(b"Holds\n"),
    }
}

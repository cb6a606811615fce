//! The command `confirm`: whether a placing or a cycle of a document is one.
ghost use Rattle.evidence_answers.specs.ConfirmTexts as texts;
ghost use Rattle.seconds_core.specs.View.{evidence_of};
ghost use Rattle.std.specs.Prelude.{IfOk, OnOk, ◌++◌, ◌≡◌};

use crate::malformed::malformed_answer;
use answers::{JudgedQuery, push_numbered};
use evidence_format::ReadEvidence;
use net_core::Memory;
use runs::{Answer, Finding};
use seconds_build::timed_of;
use seconds_check::{SecondsReason, confirm};
use seconds_core::SecondsEvidence;
use seconds_format::read_seconds;
use std::alloc::{AllocError, Global};
use tml_refs::Document;

/// The command `confirm`.
#[derive(Clone, Copy)]
pub struct Confirm;

impl JudgedQuery for Confirm {
    ghost use Rattle.evidence_answers.specs.Confirmed.{OfConfirm};
    ghost use Rattle.net_core.specs.Limits.{max_evidence};

    ghost says = { λ _. OfConfirm };

    ghost limit = { max_evidence };

    /// What a text with these bytes shows of the document, or why it is refused.
    fn answer(
        &self,
        alloc: Global,
        document: &Document<'_>,
        bytes: &[u8],
    ) -> Result<Answer, AllocError> {
        let timed = timed_of(alloc, document)?;
        let evidence = match read_seconds(alloc, bytes) {
            Ok(evidence) => evidence,
            Err(ReadEvidence::BadLine { line }) => {
                return malformed_answer(alloc, b"evidence line ", line);
            }
            Err(ReadEvidence::Memory) => return Err(AllocError),
        };
        match confirm(&timed, &evidence) {
            Ok(()) => confirmed_answer(alloc, &evidence),
            Err(reason) => refused_answer(alloc, reason),
        }
    }
}

/// The answer to what is confirmed: what it is.
fn confirmed_answer(alloc: Global, evidence: &SecondsEvidence) -> Result<Answer, AllocError>
    ensures finding { IfOk result (λ answer. answer.finding ≡ Finding.Done) }
    ensures text { IfOk result (λ answer. answer.text.items ≡ texts.seconds_claim_line (evidence_of evidence.now)) }
{
    let line = match evidence {
        SecondsEvidence::Placing(_) => Vec::from_slice(alloc, b"confirmed placing\n")?,
        SecondsEvidence::Cycle(_) => Vec::from_slice(alloc, b"confirmed cycle\n")?,
    };
    Ok(Answer::done(line))
}

/// The answer to what is refused: the reason.
fn refused_answer(alloc: Global, reason: SecondsReason) -> Result<Answer, AllocError>
    ensures finding { IfOk result (λ answer. answer.finding ≡ Finding.EvidenceFault) }
    ensures text { IfOk result (λ answer. answer.text.items ≡ texts.seconds_refusal_line reason) }
{
    let mut text = Vec::from_slice(alloc, b"seconds ")?;
    push_reason(&mut text, reason)?;
    Ok(Answer {
        finding: Finding::EvidenceFault,
        text,
    })
}

/// Appends a reason, with its number.
fn push_reason(out: &mut Vec<u8>, reason: SecondsReason) -> Result<(), AllocError>
    ensures { OnOk result (out.new.items ≡ out.old.items ++ texts.seconds_reason_text reason) }
{
    match reason {
        SecondsReason::Size { size } => push_numbered(out, b"Size ", u64::from(size)),
        SecondsReason::Order { interval } => push_numbered(out, b"Order ", u64::from(interval)),
        SecondsReason::Link { link } => push_numbered(out, b"Link ", u64::from(link)),
        SecondsReason::Bound { point } => push_numbered(out, b"Bound ", u64::from(point)),
        SecondsReason::Length { interval } => push_numbered(out, b"Length ", u64::from(interval)),
        SecondsReason::Step { step } => push_numbered(out, b"Step ", u64::from(step)),
        SecondsReason::End => out.extend_from_slice(b"End\n"),
        SecondsReason::Sum => out.extend_from_slice(b"Sum\n"),
    }
}

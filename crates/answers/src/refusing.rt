//! The answer to a document at fault.
ghost use Rattle.answers.specs.Lines.{HasFaultLine};
ghost use Rattle.std.specs.Prelude.{◌≡◌, IfOk};

use crate::lines::push_fault;
use runs::{Answer, Finding};
use std::alloc::{AllocError, Global};
use tml_accept::Refusal;

/// The answer to a document that is refused: the line of its fault.
///
/// # Errors
///
/// Out of memory, also if there was no memory to find a fault.
pub fn refusal(alloc: Global, why: Refusal) -> Result<Answer, AllocError>
    ensures finding { IfOk result (λ answer. answer.finding ≡ Finding.DocFault) }
    ensures line { IfOk result (λ answer. HasFaultLine (λ kind place. why ≡ Refusal.Fault kind place) answer.text.items) }
{
    let Refusal::Fault { kind, place } = why else {
        return Err(AllocError);
    };
    let mut text = Vec::new(alloc);
    push_fault(&mut text, kind, place)?;
    Ok(Answer {
        finding: Finding::DocFault,
        text,
    })
}

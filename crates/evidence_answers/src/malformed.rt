//! The answer to malformed evidence.
ghost use Rattle.answers.specs.Lines.{numbered};
ghost use Rattle.std.specs.Prelude.{◌≡◌, IfOk};

use answers::push_numbered;
use runs::{Answer, Finding};
use std::alloc::{AllocError, Global};

/// The answer to malformed evidence: its bad line, after words that say of which file it is.
pub fn malformed_answer(alloc: Global, words: &[u8], line: u32) -> Result<Answer, AllocError>
    ensures finding { IfOk result (λ answer. answer.finding ≡ Finding.EvidenceFault) }
    ensures text { IfOk result (λ answer. answer.text.items ≡ numbered words.now line) }
{
    let mut text = Vec::new(alloc);
    push_numbered(&mut text, words, u64::from(line))?;
    Ok(Answer {
        finding: Finding::EvidenceFault,
        text,
    })
}

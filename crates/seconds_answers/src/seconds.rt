//! The command `seconds`: a placing of a document in whole seconds, or a cycle that shows that there is none.
ghost use Rattle.seconds_core.specs.View.{evidence_of};
ghost use Rattle.seconds_format.specs.Texts.{IsSecondsText};
ghost use Rattle.std.specs.Prelude.{IfOk, ◌≡◌};

use answers::DocumentQuery;
use runs::{Answer, Finding};
use std::alloc::{AllocError, Global};
use tml_refs::Document;
use tml_seconds::{PlaceFault, SecondsEvidence, place, timed_of, write_seconds};

/// The command `seconds`.
#[derive(Clone, Copy)]
pub struct Seconds;

impl DocumentQuery for Seconds {
    ghost use Rattle.seconds_answers.specs.Seconds.{OfSeconds};

    ghost says = { λ _. OfSeconds };

    /// The text of a placing, or of a negative cycle where there is none.
    fn answer(&self, alloc: Global, document: &Document<'_>) -> Result<Answer, AllocError> {
        let timed = timed_of(alloc, document)?;
        match place(alloc, &timed) {
            Ok(placing) => text_answer(alloc, Finding::Done, &SecondsEvidence::Placing(placing)),
            Err(PlaceFault::Negative(cycle)) => {
                text_answer(alloc, Finding::Clash, &SecondsEvidence::Cycle(cycle))
            }
            Err(PlaceFault::Memory) => Err(AllocError),
        }
    }
}

/// The answer of a placing or a cycle: its text.
fn text_answer(
    alloc: Global,
    finding: Finding,
    evidence: &SecondsEvidence,
) -> Result<Answer, AllocError>
    ensures finding { IfOk result (λ answer. answer.finding ≡ finding) }
    ensures text { IfOk result (λ answer. IsSecondsText (evidence_of evidence.now) answer.text.items) }
{
    let text = write_seconds(alloc, evidence)?.into_vec();
    Ok(Answer { finding, text })
}

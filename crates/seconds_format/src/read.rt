//! Reading placings and cycles.
ghost use Rattle.line_texts.specs.Given.{GivesOrStops};
ghost use Rattle.line_texts.specs.Lines.{lines_of};
ghost use Rattle.net_core.specs.Limits.{max_evidence};
ghost use Rattle.seconds_core.specs.Evidence.{PlainSeconds};
ghost use Rattle.seconds_core.specs.View.{evidence_of};
ghost use Rattle.seconds_format.specs.Begun.{ReadsSeconds, TellsBadSecondsLine};
ghost use Rattle.seconds_format.specs.Readers as readers;
ghost use Rattle.seconds_format.specs.Texts.{IsSecondsText};
ghost use Rattle.std.specs.Prelude.{IfErr, IfOk, length, ◌≤◌};

use crate::cycle::cycle_at;
use crate::head::{SecondsHead, head_at};
use crate::placing::placing_at;
use line_texts::{ReadEvidence, Stop, end_at, refusal, same_at};
use seconds_core::SecondsEvidence;
use std::alloc::Global;

/// The placing or the cycle whose text this is. It takes time in the length of the text, and memory in the length of
/// what was read.
///
/// # Errors
///
/// `BadLine` comes exactly where it is the text of none. Its line is the first one, counted from 1, with which the lines
/// so far begin no text of a placing or a cycle, or the one that would come next where the text ends early.
pub fn read_seconds(alloc: Global, text: &[u8]) -> Result<SecondsEvidence, ReadEvidence>
    requires { length text.now ≤ max_evidence }
    ensures found { IfOk result (λ e. IsSecondsText (evidence_of e) text.now) }
    ensures only { (e : PlainSeconds) → IsSecondsText e text.now → ReadsSeconds e result }
    ensures fault { IfErr result (λ f. TellsBadSecondsLine text.now f) }
{
    match seconds_at(alloc, text) {
        Ok(evidence) => Ok(evidence),
        Err(stop) => Err(refusal(text, stop)),
    }
}

/// A placing or a cycle, with nothing after it.
#[tactic(auto, unfolding(crate::specs::Readers::seconds_at))]
fn seconds_at(alloc: Global, text: &[u8]) -> Result<SecondsEvidence, Stop<'_>>
    ensures { GivesOrStops evidence_of result (readers.seconds_at (lines_of text.now)) }
{
    let (_, rest) = same_at(b"tml-seconds 1\n", text)?;
    let (evidence, rest) = body_at(alloc, rest)?;
    end_at(rest)?;
    Ok(evidence)
}

/// What stands between the first line and the last one.
#[tactic(auto, unfolding(crate::specs::Readers::body_at))]
fn body_at<'t>(alloc: Global, text: &'t [u8]) -> Result<(SecondsEvidence, &'t [u8]), Stop<'t>>
    ensures { GivesOrStops (λ x. (evidence_of x.0, lines_of x.1.now)) result (readers.body_at (lines_of text.now)) }
{
    let (head, rest) = head_at(text)?;
    rest_at(alloc, head, rest)
}

/// What follows the line that names the kind.
#[tactic(auto, unfolding(crate::specs::Readers::rest_at), using(crate::proofs::PairLaws::seconds_again))]
fn rest_at<'t>(
    alloc: Global,
    head: SecondsHead,
    text: &'t [u8],
) -> Result<(SecondsEvidence, &'t [u8]), Stop<'t>>
    ensures { GivesOrStops (λ x. (evidence_of x.0, lines_of x.1.now)) result (readers.rest_at head (lines_of text.now)) }
{
    match head {
        SecondsHead::Placing { intervals } => {
            let (placing, rest) = placing_at(alloc, intervals, text)?;
            Ok((SecondsEvidence::Placing(placing), rest))
        }
        SecondsHead::Cycle { lines } => {
            let (cycle, rest) = cycle_at(alloc, lines, text)?;
            Ok((SecondsEvidence::Cycle(cycle), rest))
        }
    }
}

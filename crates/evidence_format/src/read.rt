//! Reading evidence.
ghost use Rattle.evidence_format.specs.Begun.{ReadsEvidence, TellsBadLine};
ghost use Rattle.evidence_format.specs.Evidence.{IsText, PlainEvidence};
ghost use Rattle.line_texts.specs.Given.{GivesOrStops};
ghost use Rattle.line_texts.specs.Lines.{lines_of};
ghost use Rattle.evidence_format.specs.Readers as readers;
ghost use Rattle.evidence_format.specs.View.{plain, plain_body};
ghost use Rattle.net_core.specs.Limits.{max_evidence};
ghost use Rattle.std.specs.Prelude.{◌≤◌, ◌-◌, length, IfOk, IfErr};

use crate::cites::cites_at;
use crate::head::{EvidenceHead, head_at};
use crate::timeline::{ranks_at, timeline_at, timelines_at};
use crate::walks::{walk_at, walks_at};
use crate::{Body, Evidence};
use line_texts::{ReadEvidence, Stop, end_at, refusal, same_at};
use std::alloc::Global;

/// The evidence whose text this is. It takes time in the length of the text, and memory in the length of what was read.
///
/// # Errors
///
/// `BadLine` comes exactly where it is the text of no evidence.
pub fn read_evidence(alloc: Global, text: &[u8]) -> Result<Evidence, ReadEvidence>
    requires { length text.now ≤ max_evidence }
    ensures ok { IfOk result (λ evidence. IsText (plain evidence) text.now) }
    ensures only { (e : PlainEvidence) → IsText e text.now → ReadsEvidence e result }
    ensures err { IfErr result (TellsBadLine text.now) }
{
    match evidence_at(alloc, text) {
        Ok(evidence) => Ok(evidence),
        Err(stop) => Err(refusal(text, stop)),
    }
}

/// Evidence with nothing after it.
#[tactic(auto, unfolding(crate::specs::Readers::evidence_at))]
fn evidence_at(alloc: Global, text: &[u8]) -> Result<Evidence, Stop<'_>>
    ensures { GivesOrStops plain result (readers.evidence_at (lines_of text.now)) }
{
    let (_, rest) = same_at(b"tml-evidence 1\n", text)?;
    let (body, rest) = body_at(alloc, rest)?;
    end_at(rest)?;
    let evidence = body.into_evidence(alloc)?;
    Ok(evidence)
}

/// What stands between the first line and the last one.
#[tactic(auto, unfolding(crate::specs::Readers::body_at))]
pub fn body_at<'t>(alloc: Global, text: &'t [u8]) -> Result<(Body, &'t [u8]), Stop<'t>>
    ensures { GivesOrStops (λ x. (plain_body x.0, lines_of x.1.now)) result (readers.body_at (lines_of text.now)) }
{
    let (head, rest) = head_at(text)?;
    rest_at(alloc, head, rest)
}

/// What follows the line that names the kind.
#[tactic(auto, unfolding(crate::specs::Readers::rest_at))]
fn rest_at<'t>(
    alloc: Global,
    head: EvidenceHead,
    text: &'t [u8],
) -> Result<(Body, &'t [u8]), Stop<'t>>
    ensures { GivesOrStops (λ x. (plain_body x.0, lines_of x.1.now)) result (readers.rest_at head (lines_of text.now)) }
{
    match head {
        EvidenceHead::Timeline { intervals } => {
            let (ranks, rest) = ranks_at(alloc, intervals, text)?;
            Ok((Body::Whole(Evidence::Timeline { ranks }), rest))
        }
        EvidenceHead::Entails { a, rel, b } => {
            let (walks, rest) = walks_at(alloc, rel.atom_count(), text)?;
            Ok((Body::Whole(Evidence::Entails { a, rel, b, walks }), rest))
        }
        EvidenceHead::Counter { a, rel, b } => {
            let (ranks, rest) = timeline_at(alloc, text)?;
            Ok((Body::Whole(Evidence::Counter { a, rel, b, ranks }), rest))
        }
        EvidenceHead::Clash { links } => {
            let (cites, rest) = cites_at(alloc, links, text)?;
            let (walk, rest) = walk_at(alloc, rest)?;
            let (spares, rest) = timelines_at(alloc, links, rest)?;
            let clash = Body::Clash {
                cites,
                walk,
                spares,
            };
            Ok((clash, rest))
        }
    }
}

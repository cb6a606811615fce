//! The line that names the kind of evidence.
ghost use Rattle.evidence_format.specs.Forms as forms;
ghost use Rattle.line_texts.specs.Given.{GivesOrStops};
ghost use Rattle.line_texts.specs.Lines.{lines_of};
ghost use Rattle.line_texts.specs.Reading.{line_at};
ghost use Rattle.std.specs.Prelude.{◌≡◌};

use line_texts::{Stop, next_line, one_of, relation_of};
use net_core::Rel;

/// The kind of evidence, with what its line says.
#[derive(Clone, Copy)]
pub enum EvidenceHead {
    /// A timeline of this number of intervals.
    Timeline { intervals: u32 },
    /// A relation between two intervals that holds in every timeline that fits.
    Entails { a: u32, rel: Rel, b: u32 },
    /// A relation between two intervals that is false in a timeline that fits.
    Counter { a: u32, rel: Rel, b: u32 },
    /// This number of links that cannot all be true.
    Clash { links: u32 },
}

/// The kind of evidence, and what follows its line.
pub fn head_at(text: &[u8]) -> Result<(EvidenceHead, &[u8]), Stop<'_>>
    ensures { GivesOrStops (λ x. (x.0, lines_of x.1.now)) result (line_at forms.head_of (lines_of text.now)) }
{
    let (line, rest) = next_line(text).ok_or(Stop::BadLine(text))?;
    let head = head_of(line).ok_or(Stop::BadLine(text))?;
    Ok((head, rest))
}

/// The kind that a line names. None comes exactly where it names none.
#[tactic(auto, unfolding(crate::specs::Forms::head_of))]
fn head_of(line: &[u8]) -> Option<EvidenceHead>
    ensures { result ≡ forms.head_of line.now }
{
    if let Some(intervals) = one_of(b"timeline ", line) {
        return Some(EvidenceHead::Timeline { intervals });
    }
    if let Some((a, rel, b)) = relation_of(b"entails ", line) {
        return Some(EvidenceHead::Entails { a, rel, b });
    }
    if let Some((a, rel, b)) = relation_of(b"counter ", line) {
        return Some(EvidenceHead::Counter { a, rel, b });
    }
    let links = one_of(b"clash ", line)?;
    Some(EvidenceHead::Clash { links })
}

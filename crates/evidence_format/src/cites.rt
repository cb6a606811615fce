//! Reading cites.
ghost use Rattle.evidence_format.specs.Forms as forms;
ghost use Rattle.line_texts.specs.Given.{GivesOrStops};
ghost use Rattle.line_texts.specs.Lines.{lines_of};
ghost use Rattle.evidence_format.specs.Readers as readers;
ghost use Rattle.line_texts.specs.Reading.{line_at};
ghost use Rattle.std.specs.Prelude.{◌≡◌};

use line_texts::{Stop, next_line, one_of};
use net_core::List;
use std::alloc::Global;

/// This number of cites, which rise, and what follows them. Nothing is reserved by the count, which comes from a stranger.
pub fn cites_at<'t>(
    alloc: Global,
    count: u32,
    text: &'t [u8],
) -> Result<(List<u32>, &'t [u8]), Stop<'t>>
    ensures { GivesOrStops (λ x. (x.0, lines_of x.1.now)) result (readers.cites_at count 0 (lines_of text.now)) }
{
    let mut cites = List::new(alloc);
    let mut least = 0;
    let mut rest = text;
    for left in (0..count).rev() {
        let (link, after) = cite_at(left, least, rest)?;
        cites.push(link)?;
        least = u64::from(link) + 1;
        rest = after;
    }
    Ok((cites, rest))
}

/// A cite that is at least `least`, and leaves numbers for `left` more, and what follows its line.
fn cite_at(left: u32, least: u64, text: &[u8]) -> Result<(u32, &[u8]), Stop<'_>>
    ensures { GivesOrStops (λ x. (x.0, lines_of x.1.now)) result (line_at (forms.cite_of left least) (lines_of text.now)) }
{
    let (line, rest) = next_line(text).ok_or(Stop::BadLine(text))?;
    let link = cite_of(left, least, line).ok_or(Stop::BadLine(text))?;
    Ok((link, rest))
}

/// The cite of a line, where it is at least `least`, and leaves numbers for `left` more. None comes exactly where the
/// line is that of no such cite.
#[tactic(auto, unfolding(crate::specs::Forms::cite_of))]
fn cite_of(left: u32, least: u64, line: &[u8]) -> Option<u32>
    ensures { result ≡ forms.cite_of left least line.now }
{
    let link = one_of(b"cite ", line)?;
    if least <= u64::from(link) && link <= u32::MAX - left {
        Some(link)
    } else {
        None
    }
}

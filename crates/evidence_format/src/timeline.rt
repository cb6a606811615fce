//! Reading timelines.
ghost use Rattle.evidence_format.specs.Given.{AppendsRanks};
ghost use Rattle.line_texts.specs.Given.{GivesOrStops};
ghost use Rattle.line_texts.specs.Lines.{lines_of};
ghost use Rattle.evidence_format.specs.Readers as readers;
ghost use Rattle.line_texts.specs.Reading.{line_at, many_at};
ghost use Rattle.line_texts.specs.Words as words;
ghost use Rattle.net_core.specs.Ranks.{pairs_of};
ghost use Rattle.std.specs.Prelude.{map, codes};

use crate::Timelines;
use line_texts::{Stop, one_at, two_to};
use net_core::{List, Ranks};
use std::alloc::Global;

/// This number of timelines, and what follows them. Nothing is reserved by the count, which comes from a stranger.
pub fn timelines_at<'t>(
    alloc: Global,
    count: u32,
    text: &'t [u8],
) -> Result<(Timelines, &'t [u8]), Stop<'t>>
    ensures { GivesOrStops (λ x. (map pairs_of x.0, lines_of x.1.now)) result
        (many_at readers.timeline_at count (lines_of text.now)) }
{
    let mut ranks = Ranks::new(alloc);
    let mut ends = List::new(alloc);
    let mut rest = text;
    for _ in 0..count {
        rest = push_timeline_at(&mut ranks, rest)?;
        ends.push(ranks.as_slice().len())?;
    }
    Ok((Timelines::from_parts(ranks, ends), rest))
}

/// Appends the ranks of a timeline, and answers what follows it.
#[tactic(auto, unfolding(crate::specs::Readers::timeline_at))]
fn push_timeline_at<'t>(ranks: &mut Ranks, text: &'t [u8]) -> Result<&'t [u8], Stop<'t>>
    ensures { AppendsRanks ranks.old ranks.new result (readers.timeline_at (lines_of text.now)) }
{
    let (count, rest) = one_at(b"timeline ", text)?;
    push_ranks_at(ranks, count, rest)
}

/// A timeline, and what follows it.
#[tactic(auto, unfolding(crate::specs::Readers::timeline_at))]
pub fn timeline_at<'t>(alloc: Global, text: &'t [u8]) -> Result<(Ranks, &'t [u8]), Stop<'t>>
    ensures { GivesOrStops (λ x. (pairs_of x.0, lines_of x.1.now)) result (readers.timeline_at (lines_of text.now)) }
{
    let (count, rest) = one_at(b"timeline ", text)?;
    ranks_at(alloc, count, rest)
}

/// The ranks of this number of intervals, and what follows them.
#[tactic(auto, using(crate::proofs::Parted::pairs_again))]
pub fn ranks_at<'t>(
    alloc: Global,
    count: u32,
    text: &'t [u8],
) -> Result<(Ranks, &'t [u8]), Stop<'t>>
    ensures { GivesOrStops (λ x. (pairs_of x.0, lines_of x.1.now)) result (readers.ranks_at count (lines_of text.now)) }
{
    let mut ranks = Ranks::new(alloc);
    let rest = push_ranks_at(&mut ranks, count, text)?;
    Ok((ranks, rest))
}

/// Appends the ranks of this number of intervals, and answers what follows them. Nothing is reserved by the count, which comes
/// from a stranger.
fn push_ranks_at<'t>(ranks: &mut Ranks, count: u32, text: &'t [u8]) -> Result<&'t [u8], Stop<'t>>
    ensures { AppendsRanks ranks.old ranks.new result (readers.ranks_at count (lines_of text.now)) }
{
    let mut rest = text;
    for _ in 0..count {
        let ((start, finish), after) = interval_at(rest)?;
        ranks.push(start, finish)?;
        rest = after;
    }
    Ok(rest)
}

/// The ranks of one interval, and what follows its line. The line is not cut off first: it ends where its second number
/// does.
#[tactic(auto, using(line_texts::proofs::LineLaws::pair_at))]
fn interval_at(text: &[u8]) -> Result<((u32, u32), &[u8]), Stop<'_>>
    ensures { GivesOrStops (λ x. (x.0, lines_of x.1.now)) result (line_at (words.two_of (codes "at ")) (lines_of text.now)) }
{
    two_to(b"at ", text).ok_or(Stop::BadLine(text))
}

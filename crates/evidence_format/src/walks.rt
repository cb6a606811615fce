//! Reading walks.
ghost use Rattle.evidence_format.specs.Forms as forms;
ghost use Rattle.line_texts.specs.Given.{GivesOrStops};
ghost use Rattle.line_texts.specs.Lines.{lines_of};
ghost use Rattle.evidence_format.specs.Readers as readers;
ghost use Rattle.line_texts.specs.Reading.{line_at, many_at};
ghost use Rattle.std.specs.Prelude.{◌≡◌};

use line_texts::{Stop, next_line, one_at, one_of, two_of};
use net_core::{List, Step, Walk};
use std::alloc::Global;

/// This number of walks, and what follows them.
pub fn walks_at<'t>(
    alloc: Global,
    count: u32,
    text: &'t [u8],
) -> Result<(List<Walk>, &'t [u8]), Stop<'t>>
    ensures { GivesOrStops (λ x. (x.0, lines_of x.1.now)) result (many_at readers.walk_at count (lines_of text.now)) }
{
    let mut walks = List::new(alloc);
    let mut rest = text;
    for _ in 0..count {
        let (walk, after) = walk_at(alloc, rest)?;
        walks.push(walk)?;
        rest = after;
    }
    Ok((walks, rest))
}

/// A walk, and what follows it.
#[tactic(auto, unfolding(crate::specs::Readers::walk_at))]
pub fn walk_at<'t>(alloc: Global, text: &'t [u8]) -> Result<(Walk, &'t [u8]), Stop<'t>>
    ensures { GivesOrStops (λ x. (x.0, lines_of x.1.now)) result (readers.walk_at (lines_of text.now)) }
{
    let (count, rest) = one_at(b"walk ", text)?;
    steps_at(alloc, count, rest)
}

/// This number of steps, and what follows them. Nothing is reserved by the count, which comes from a stranger.
fn steps_at<'t>(alloc: Global, count: u32, text: &'t [u8]) -> Result<(Walk, &'t [u8]), Stop<'t>>
    ensures { GivesOrStops (λ x. (x.0, lines_of x.1.now)) result (readers.steps_at count (lines_of text.now)) }
{
    let mut walk = Walk::new(alloc);
    let mut rest = text;
    for _ in 0..count {
        let (step, after) = step_at(rest)?;
        walk.push(step)?;
        rest = after;
    }
    Ok((walk, rest))
}

/// A step, and what follows its line.
fn step_at(text: &[u8]) -> Result<(Step, &[u8]), Stop<'_>>
    ensures { GivesOrStops (λ x. (x.0, lines_of x.1.now)) result (line_at forms.step_of (lines_of text.now)) }
{
    let (line, rest) = next_line(text).ok_or(Stop::BadLine(text))?;
    let step = step_of(line).ok_or(Stop::BadLine(text))?;
    Ok((step, rest))
}

/// The step of a line. None comes exactly where it is that of none.
#[tactic(auto, unfolding(crate::specs::Forms::step_of))]
fn step_of(line: &[u8]) -> Option<Step>
    ensures { result ≡ forms.step_of line.now }
{
    if let Some((link, atom)) = two_of(b"via ", line) {
        return Some(Step::Link { link, atom });
    }
    if let Some(interval) = one_of(b"span ", line) {
        return Some(Step::Span { interval });
    }
    let (from, to) = two_of(b"calendar ", line)?;
    Some(Step::Calendar { from, to })
}

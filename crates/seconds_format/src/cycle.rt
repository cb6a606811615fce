//! Reading cycles.
ghost use Rattle.line_texts.specs.Given.{GivesOrStops};
ghost use Rattle.line_texts.specs.Lines.{lines_of};
ghost use Rattle.line_texts.specs.Reading.{line_at};
ghost use Rattle.seconds_core.specs.Evidence.{max_lines};
ghost use Rattle.seconds_format.specs.Forms as forms;
ghost use Rattle.seconds_format.specs.Readers as readers;
ghost use Rattle.std.specs.Prelude.{IfOk, length, ◌<◌, ◌≡◌};

use line_texts::{Stop, next_line, one_of, two_of};
use net_core::List;
use seconds_core::{Cycle, Line};
use std::alloc::Global;

/// This number of lines, and what follows them.
pub fn cycle_at<'t>(
    alloc: Global,
    count: u32,
    text: &'t [u8],
) -> Result<(Cycle, &'t [u8]), Stop<'t>>
    ensures { GivesOrStops (λ x. (x.0, lines_of x.1.now)) result (readers.cycle_at count (lines_of text.now)) }
{
    let (lines, rest) = lines_at(alloc, count, text)?;
    Ok((Cycle::from_vec(lines.into_vec()), rest))
}

/// This number of lines, and what follows them. Nothing is reserved by the count, which comes from a stranger.
fn lines_at<'t>(
    alloc: Global,
    count: u32,
    text: &'t [u8],
) -> Result<(List<Line>, &'t [u8]), Stop<'t>>
    ensures lines { GivesOrStops (λ x. (x.0, lines_of x.1.now)) result (readers.cycle_at count (lines_of text.now)) }
    ensures few { IfOk result (λ x. length x.0 < max_lines) }
{
    let mut lines = List::new(alloc);
    let mut rest = text;
    for _ in 0..count {
        let (line, after) = line_at(rest)?;
        lines.push(line)?;
        rest = after;
    }
    Ok((lines, rest))
}

/// A line, and what follows it.
fn line_at(text: &[u8]) -> Result<(Line, &[u8]), Stop<'_>>
    ensures { GivesOrStops (λ x. (x.0, lines_of x.1.now)) result (line_at forms.cycle_line_of (lines_of text.now)) }
{
    let (line, rest) = next_line(text).ok_or(Stop::BadLine(text))?;
    let line = cycle_line_of(line).ok_or(Stop::BadLine(text))?;
    Ok((line, rest))
}

/// What a line names. None comes exactly where it names nothing.
#[tactic(auto, unfolding(crate::specs::Forms::cycle_line_of))]
fn cycle_line_of(line: &[u8]) -> Option<Line>
    ensures { result ≡ forms.cycle_line_of line.now }
{
    if let Some(interval) = one_of(b"span ", line) {
        return Some(Line::Span { interval });
    }
    if let Some((link, atom)) = two_of(b"via ", line) {
        return Some(Line::Via { link, atom });
    }
    if let Some(point) = one_of(b"lower ", line) {
        return Some(Line::Lower { point });
    }
    if let Some(point) = one_of(b"upper ", line) {
        return Some(Line::Upper { point });
    }
    if let Some(interval) = one_of(b"least ", line) {
        return Some(Line::Least { interval });
    }
    let interval = one_of(b"most ", line)?;
    Some(Line::Most { interval })
}

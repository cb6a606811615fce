//! The lines of a text.
ghost use Rattle.line_texts.specs.Given.{GivesOrStops};
ghost use Rattle.line_texts.specs.Lines.{lines_of};
ghost use Rattle.line_texts.specs.Reading as reading;
ghost use Rattle.line_texts.specs.Words as words;
ghost use Rattle.std.specs.Prelude.{MatchOption, [], ◌∷◌, ◌≡◌};

use crate::stop::Stop;
use crate::words::{is_same, len_to, one_of};

/// The first line with its LF, where it has one, and what follows it. None comes exactly where the text is empty.
pub fn next_line(text: &[u8]) -> Option<(&[u8], &[u8])>
    ensures { MatchOption result (lines_of text.now ≡ []) (λ r. lines_of text.now ≡ r.0.now ∷ lines_of r.1.now) }
{
    if text.is_empty() {
        return None;
    }
    let len = len_to(b'\n', text);
    Some(text.split_at(text.len().min(len + 1)))
}

/// Passes a line that is this one.
pub fn same_at<'t>(wanted: &[u8], text: &'t [u8]) -> Result<((), &'t [u8]), Stop<'t>>
    ensures { GivesOrStops (λ x. (x.0, lines_of x.1.now)) result (reading.line_at (words.same_of wanted.now) (lines_of text.now)) }
{
    let (line, rest) = next_line(text).ok_or(Stop::BadLine(text))?;
    if is_same(line, wanted) {
        Ok(((), rest))
    } else {
        Err(Stop::BadLine(text))
    }
}

/// Passes the last line, with nothing after it.
#[tactic(auto, unfolding(crate::specs::Reading::end_at))]
pub fn end_at(text: &[u8]) -> Result<(), Stop<'_>>
    ensures { GivesOrStops (λ x. x) result (reading.end_at (lines_of text.now)) }
{
    let (_, rest) = same_at(b"end\n", text)?;
    match next_line(rest) {
        None => Ok(()),
        Some(_) => Err(Stop::BadLine(rest)),
    }
}

/// The number of a line of a keyword and one number.
pub fn one_at<'t>(keyword: &[u8], text: &'t [u8]) -> Result<(u32, &'t [u8]), Stop<'t>>
    ensures { GivesOrStops (λ x. (x.0, lines_of x.1.now)) result (reading.line_at (words.one_of keyword.now) (lines_of text.now)) }
{
    let (line, rest) = next_line(text).ok_or(Stop::BadLine(text))?;
    let n = one_of(keyword, line).ok_or(Stop::BadLine(text))?;
    Ok((n, rest))
}

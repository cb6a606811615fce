//! The line that names the kind of evidence.
ghost use Rattle.line_texts.specs.Given.{GivesOrStops};
ghost use Rattle.line_texts.specs.Lines.{lines_of};
ghost use Rattle.line_texts.specs.Reading.{line_at};
ghost use Rattle.seconds_format.specs.Forms as forms;
ghost use Rattle.std.specs.Prelude.{◌≡◌};

use line_texts::{Stop, next_line, one_of};

/// The kind of evidence, with what its line says.
#[derive(Clone, Copy)]
pub enum SecondsHead {
    /// A placing of this number of intervals.
    Placing { intervals: u32 },
    /// A cycle of this number of lines.
    Cycle { lines: u32 },
}

/// The kind of evidence, and what follows its line.
pub fn head_at(text: &[u8]) -> Result<(SecondsHead, &[u8]), Stop<'_>>
    ensures { GivesOrStops (λ x. (x.0, lines_of x.1.now)) result (line_at forms.head_of (lines_of text.now)) }
{
    let (line, rest) = next_line(text).ok_or(Stop::BadLine(text))?;
    let head = head_of(line).ok_or(Stop::BadLine(text))?;
    Ok((head, rest))
}

/// The kind that a line names. None comes exactly where it names none.
#[tactic(auto, unfolding(crate::specs::Forms::head_of))]
fn head_of(line: &[u8]) -> Option<SecondsHead>
    ensures { result ≡ forms.head_of line.now }
{
    if let Some(intervals) = one_of(b"placing ", line) {
        return Some(SecondsHead::Placing { intervals });
    }
    let lines = one_of(b"cycle ", line)?;
    Some(SecondsHead::Cycle { lines })
}

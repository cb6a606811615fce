//! Why no value was read, and at which line.
ghost use Rattle.line_texts.specs.Given.{IsStopWithin, refusal_of};
ghost use Rattle.line_texts.specs.Lines.{is_lf};
ghost use Rattle.net_core.specs.Limits.{max_evidence};
ghost use Rattle.std.specs.List.{count_by};
ghost use Rattle.std.specs.Prelude.{◌≡◌, ◌≤◌, ◌+◌, ◌-◌, length, take};

use crate::Stop;
use std::error::Error;
use std::fmt;

/// Why no evidence was read.
#[derive(Clone, Copy, Debug, PartialEq, Eq)]
pub enum ReadEvidence {
    /// The number, counted from 1, of the first line with which the lines so far begin no text of evidence, or of the
    /// line that would come next where the text ends early. A line without LF is bad.
    BadLine { line: u32 },
    /// Out of memory.
    Memory,
}

impl fmt::Display for ReadEvidence {
    fn fmt<W: fmt::Write>(&self, f: &mut fmt::Formatter<W>) -> fmt::Result {
        match self {
            ReadEvidence::BadLine { line } => write!(f, "line {line} is bad"),
            ReadEvidence::Memory => f.write_str("out of memory"),
        }
    }
}

impl Error for ReadEvidence {}

/// Why no value was read of a text, where reading stops.
pub fn refusal(text: &[u8], stop: Stop<'_>) -> ReadEvidence
    requires within { IsStopWithin text.now stop }
    requires limit { length text.now ≤ max_evidence }
    ensures { result ≡ refusal_of text.now stop.entry }
{
    match stop {
        Stop::BadLine(rest) => ReadEvidence::BadLine {
            line: line_of(text, rest),
        },
        Stop::Memory => ReadEvidence::Memory,
    }
}

/// The number, counted from 1, of the line at which the rest of a text begins.
fn line_of(text: &[u8], rest: &[u8]) -> u32
    requires within { length rest.now ≤ length text.now }
    requires limit { length text.now ≤ max_evidence }
    ensures { result ≡ count_by is_lf (take (length text.now - length rest.now) text.now) + 1 }
{
    let read = &text[..text.len() - rest.len()];
    let mut line = 1;
    for b in read {
        if *b == b'\n' {
            line += 1;
        }
    }
    line
}

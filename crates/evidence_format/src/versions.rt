//! The lines before the bodies of claims, in either version.
ghost use Rattle.evidence_format.specs.Forms as forms;
ghost use Rattle.line_texts.specs.Given.{GivesOrStops};
ghost use Rattle.line_texts.specs.Lines.{lines_of};
ghost use Rattle.evidence_format.specs.Readers as readers;
ghost use Rattle.line_texts.specs.Reading.{line_at};
ghost use Rattle.std.specs.Prelude.{◌≡◌};

use line_texts::{Stop, is_same, next_line, one_of};

/// A version of the text of evidence.
#[derive(Clone, Copy)]
pub enum Version {
    /// One claim.
    One,
    /// As many claims as a line says.
    Two,
}

/// How many bodies there are, by the lines before them, and what follows these.
#[tactic(auto, unfolding(crate::specs::Readers::opening_at))]
pub fn opening_at(text: &[u8]) -> Result<(u32, &[u8]), Stop<'_>>
    ensures { GivesOrStops (λ x. (x.0, lines_of x.1.now)) result (readers.opening_at (lines_of text.now)) }
{
    let (version, rest) = version_at(text)?;
    count_at(version, rest)
}

/// How many bodies there are: in version 2 a line says it.
#[tactic(auto, unfolding(crate::specs::Readers::count_at))]
fn count_at(version: Version, text: &[u8]) -> Result<(u32, &[u8]), Stop<'_>>
    ensures { GivesOrStops (λ x. (x.0, lines_of x.1.now)) result (readers.count_at version (lines_of text.now)) }
{
    match version {
        Version::One => Ok((1, text)),
        Version::Two => claims_at(text),
    }
}

/// How many claims there are, and what follows the line that says it.
fn claims_at(text: &[u8]) -> Result<(u32, &[u8]), Stop<'_>>
    ensures { GivesOrStops (λ x. (x.0, lines_of x.1.now)) result (line_at forms.claims_of (lines_of text.now)) }
{
    let (line, rest) = next_line(text).ok_or(Stop::BadLine(text))?;
    let claims = claims_of(line).ok_or(Stop::BadLine(text))?;
    Ok((claims, rest))
}

/// How many claims there are, by the line that says it. None comes exactly where it says no number from 1 on.
#[tactic(auto, unfolding(crate::specs::Forms::claims_of))]
fn claims_of(line: &[u8]) -> Option<u32>
    ensures { result ≡ forms.claims_of line.now }
{
    let claims = one_of(b"claims ", line)?;
    if 0 < claims { Some(claims) } else { None }
}

/// The version, and what follows the line that names it.
fn version_at(text: &[u8]) -> Result<(Version, &[u8]), Stop<'_>>
    ensures { GivesOrStops (λ x. (x.0, lines_of x.1.now)) result (line_at forms.version_of (lines_of text.now)) }
{
    let (line, rest) = next_line(text).ok_or(Stop::BadLine(text))?;
    let version = version_of(line).ok_or(Stop::BadLine(text))?;
    Ok((version, rest))
}

/// The version that a line names. None comes exactly where it names none.
#[tactic(auto, unfolding(crate::specs::Forms::version_of))]
fn version_of(line: &[u8]) -> Option<Version>
    ensures { result ≡ forms.version_of line.now }
{
    if is_same(line, b"tml-evidence 1\n") {
        return Some(Version::One);
    }
    if is_same(line, b"tml-evidence 2\n") {
        return Some(Version::Two);
    }
    None
}

//! Names of intervals, and words that name nothing.
ghost use Rattle.answers.specs.Names.{AreNames};
ghost use Rattle.std.specs.Prelude.{IfOk, map, ◌≡◌};

use runs::{Answer, Finding};
use std::alloc::{AllocError, Global};
use tml_refs::Document;

/// The answer that a word names nothing: this line.
///
/// # Errors
///
/// Out of memory.
pub fn unknown_name(alloc: Global, line: &[u8]) -> Result<Answer, AllocError>
    ensures finding { IfOk result (λ answer. answer.finding ≡ Finding.UnknownName) }
    ensures text { IfOk result (λ answer. answer.text.items ≡ line.now) }
{
    let text = Vec::from_slice(alloc, line)?;
    Ok(Answer {
        finding: Finding::UnknownName,
        text,
    })
}

/// The names of the intervals of a document, in their order.
///
/// # Errors
///
/// Out of memory.
pub fn names_of<'s>(alloc: Global, document: &Document<'s>) -> Result<Vec<&'s [u8]>, AllocError>
    ensures { IfOk result (λ names. AreNames document.now.intervals (map (λ name. name.now) names.items)) }
{
    let mut names = Vec::new(alloc);
    for i in 0..document.intervals() {
        names.push(document.interval(i).name())?;
    }
    Ok(names)
}

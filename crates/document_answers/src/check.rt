//! The command `check`: whether a document is well annotated.
ghost use Rattle.document_answers.specs.Check as texts;
ghost use Rattle.std.specs.Prelude.{◌≡◌, ◌<◌, ◌++◌, length, IfOk, OnOk};
ghost use Rattle.tml_refs.specs.View.{plain_interval};

use answers::{DocumentQuery, push_link, push_numbered, push_prefix};
use runs::Answer;
use std::alloc::{AllocError, Global};
use tml_refs::{Counts, Document, Interval};

/// The command `check`.
#[derive(Clone, Copy)]
pub struct Check;

impl DocumentQuery for Check {
    ghost use Rattle.document_answers.specs.Check.{OfCheck};

    ghost says = { λ _. OfCheck };

    /// How many tags of each kind the document has, its intervals and its links.
    fn answer(&self, alloc: Global, document: &Document<'_>) -> Result<Answer, AllocError> {
        Ok(Answer::done(accepted(alloc, document)?))
    }
}

/// The text for an accepted document.
fn accepted(alloc: Global, document: &Document<'_>) -> Result<Vec<u8>, AllocError>
    ensures { IfOk result (λ out. out.items ≡ texts.accepted document.now) }
{
    let mut out = Vec::from_slice(alloc, b"accepted\n")?;
    push_counts(&mut out, document.counts())?;
    push_intervals(&mut out, document)?;
    push_links(&mut out, document)?;
    Ok(out)
}

fn push_counts(out: &mut Vec<u8>, counts: Counts) -> Result<(), AllocError>
    ensures { OnOk result (out.new.items ≡ out.old.items ++ texts.count_lines counts) }
{
    push_numbered(out, b"events ", u64::from(counts.events))?;
    push_numbered(out, b"instances ", u64::from(counts.instances))?;
    push_numbered(out, b"timex ", u64::from(counts.timex))?;
    push_numbered(out, b"signals ", u64::from(counts.signals))?;
    push_numbered(out, b"tlinks ", u64::from(counts.tlinks))?;
    push_numbered(out, b"alinks ", u64::from(counts.alinks))?;
    push_numbered(out, b"slinks ", u64::from(counts.slinks))
}

fn push_intervals(out: &mut Vec<u8>, document: &Document<'_>) -> Result<(), AllocError>
    ensures { OnOk result (out.new.items ≡ out.old.items ++ texts.interval_lines 0 document.now.intervals) }
{
    for i in 0..document.intervals() {
        push_interval(out, i, document.interval(i))?;
    }
    Ok(())
}

/// The number and the name of an interval.
fn push_interval(out: &mut Vec<u8>, i: u32, interval: Interval<'_>) -> Result<(), AllocError>
    ensures { OnOk result (out.new.items ≡ out.old.items ++ texts.interval_line i (plain_interval interval.entry)) }
{
    push_prefix(out, b"interval ", i)?;
    out.extend_from_slice(interval.name())?;
    out.extend_from_slice(b"\n")
}

fn push_links(out: &mut Vec<u8>, document: &Document<'_>) -> Result<(), AllocError>
    ensures { OnOk result (out.new.items ≡ out.old.items ++ texts.link_lines document.now.intervals 0 document.now.links) }
{
    for k in 0..document.links() {
        push_link(out, k, document.link(k), document)?;
    }
    Ok(())
}

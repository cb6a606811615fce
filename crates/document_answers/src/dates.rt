//! The command `dates`: when the times of a document are by the calendar.
ghost use Rattle.document_answers.specs.Dates.{AddsText, BoundsText, DateLine, DateLines, EndsText, numbers};
ghost use Rattle.std.specs.Fmt.{signed_decimal};
ghost use Rattle.std.specs.Prelude.{◌≡◌, ◌++◌, codes, IfOk, OnOk};
ghost use Rattle.timex_dates.specs.Answers.{IsCivil};
ghost use Rattle.timex_dates.specs.Seconds.{IsCivilSecond};
ghost use Rattle.tml_refs.specs.View.{plain_interval};

use answers::DocumentQuery;
use itoa::Buffer;
use net_core::Bounds;
use runs::Answer;
use std::alloc::{AllocError, Global};
use timex_dates::{bounds_of, civil_text};
use tml_refs::{Document, Interval};

/// The command `dates`.
#[derive(Clone, Copy)]
pub struct Dates;

impl DocumentQuery for Dates {
    ghost use Rattle.document_answers.specs.Dates.{OfDates};

    ghost says = { λ _. OfDates };

    /// A line for each TIMEX3 of the document.
    fn answer(&self, alloc: Global, document: &Document<'_>) -> Result<Answer, AllocError> {
        Ok(Answer::done(date_lines(alloc, document)?))
    }
}

/// A line for each time.
fn date_lines(alloc: Global, document: &Document<'_>) -> Result<Vec<u8>, AllocError>
    ensures { IfOk result (λ out. DateLines document.now.intervals out.items) }
{
    let mut out = Vec::new(alloc);
    for i in 0..document.intervals() {
        push_date(&mut out, document.interval(i))?;
    }
    Ok(out)
}

/// The line of a time: its name and its bounds. An instance has none.
fn push_date(out: &mut Vec<u8>, interval: Interval<'_>) -> Result<(), AllocError>
    ensures { OnOk result (AddsText (DateLine (plain_interval interval.entry)) out.old.items out.new.items) }
{
    match interval {
        Interval::Instance { .. } => Ok(()),
        Interval::Timex {
            name,
            kind,
            modifier,
            value,
        } => {
            out.extend_from_slice(name)?;
            out.extend_from_slice(b" ")?;
            push_bounds(out, bounds_of(kind, modifier, value.as_ref()))?;
            out.extend_from_slice(b"\n")
        }
    }
}

fn push_bounds(out: &mut Vec<u8>, bounds: Bounds) -> Result<(), AllocError>
    requires { IsCivil bounds }
    ensures { OnOk result (AddsText (BoundsText bounds) out.old.items out.new.items) }
{
    match bounds {
        Bounds::Exact { lo, hi } => push_ends(out, b"exact ", lo, hi),
        Bounds::Within { lo, hi } => push_ends(out, b"within ", lo, hi),
        Bounds::Free => out.extend_from_slice(b"free"),
    }
}

/// A word that ends in a space, and both ends of an interval, as numbers and then as civil texts.
fn push_ends(out: &mut Vec<u8>, word: &[u8], lo: i64, hi: i64) -> Result<(), AllocError>
    requires lo { IsCivilSecond lo }
    requires hi { IsCivilSecond hi }
    ensures { OnOk result (AddsText (EndsText lo hi) (out.old.items ++ word.now) out.new.items) }
{
    let from = civil_text(lo);
    let to = civil_text(hi);
    out.extend_from_slice(word)?;
    push_numbers(out, lo, hi)?;
    push_texts(out, from.as_bytes(), to.as_bytes())
}

/// Two texts, with a space between them.
fn push_texts(out: &mut Vec<u8>, from: &[u8], to: &[u8]) -> Result<(), AllocError>
    ensures { OnOk result (out.new.items ≡ out.old.items ++ (from.now ++ codes " " ++ to.now)) }
{
    out.extend_from_slice(from)?;
    out.extend_from_slice(b" ")?;
    out.extend_from_slice(to)
}

/// Two numbers, each followed by a space.
fn push_numbers(out: &mut Vec<u8>, lo: i64, hi: i64) -> Result<(), AllocError>
    ensures { OnOk result (out.new.items ≡ out.old.items ++ numbers lo hi) }
{
    push_second(out, lo)?;
    push_second(out, hi)
}

/// A number, and a space.
fn push_second(out: &mut Vec<u8>, second: i64) -> Result<(), AllocError>
    ensures { OnOk result (out.new.items ≡ out.old.items ++ (signed_decimal second ++ codes " ")) }
{
    let mut buffer = Buffer::new();
    out.extend_from_slice(buffer.format(second).as_bytes())?;
    out.extend_from_slice(b" ")
}

//! The command `spans`: the units of a document.
ghost use Rattle.document_answers.specs.Spans as texts;
ghost use Rattle.document_answers.specs.Spans.{HasTable, OfSpans};
ghost use Rattle.std.specs.List.{flat_map};
ghost use Rattle.std.specs.Prelude.{◌≡◌, ◌<◌, ◌++◌, ◌^◌, length, map, IfOk, IfErr, OnOk};
ghost use Rattle.tml_span.specs.Faults.{HasCutFault};
ghost use Rattle.tml_span.specs.View.{attribute_of, unit_of};

use answers::refusal;
use itoa::write_digits;
use runs::{Answer, FileQuery};
use std::alloc::{AllocError, Global};
use tml_accept::Refusal;
use tml_span::{Attr, Cut, Cutter, Span, Unit, cut_of};

/// The command `spans`.
#[derive(Clone, Copy)]
pub struct Spans;

impl FileQuery for Spans {
    ghost use Rattle.document_answers.specs.Spans.{OfSpans};
    ghost use Rattle.net_core.specs.Limits.{max_document};

    ghost says = { λ _. OfSpans };

    ghost limit = { max_document };

    /// The table of the units, or the fault of the cut.
    fn answer(&self, alloc: Global, bytes: &[u8]) -> Result<Answer, AllocError> {
        match unit_table(alloc, bytes) {
            Ok(table) => Ok(Answer::done(table)),
            Err(cut) => refusal(alloc, Refusal::of(cut.kind_and_place())),
        }
    }
}

/// A line for each unit, and after that of a start tag one for each attribute.
fn unit_table(alloc: Global, doc: &[u8]) -> Result<Vec<u8>, Cut>
    requires { length doc.now < 2 ^ 32 }
    ensures table { IfOk result (λ table. HasTable doc.now table.items) }
    ensures fault { IfErr result (λ cut. HasCutFault doc.now cut) }
{
    let mut cutter = match Cutter::new(doc) {
        Ok(cutter) => cutter,
        Err(fault) => return Err(cut_of(fault)),
    };
    let mut table = Vec::new(alloc);
    loop {
        match cutter.pull(alloc) {
            Ok(Some(unit)) => {
                if push_unit(&mut table, &unit).is_err() {
                    return Err(cutter.out_of_memory());
                }
                cutter.take_back(unit);
            }
            Ok(None) => return Ok(table),
            Err(cut) => return Err(cut),
        }
    }
}

/// The most digits of a place.
const MAX_DIGITS: usize = 10;

/// Room for the two places of a span, each followed by a space.
const SPAN_ROOM: usize = 2 * MAX_DIGITS + 2;

/// The start and the end of a span, each followed by a space. They are written from the right into an
/// array of spaces.
fn push_span(out: &mut Vec<u8>, span: Span) -> Result<(), AllocError>
    ensures { OnOk result (out.new.items ≡ out.old.items ++ texts.span_prefix span.start span.end) }
{
    let mut text = [b' '; SPAN_ROOM];
    let end = write_digits(span.end as u64, &mut text, SPAN_ROOM - 1);
    let start = write_digits(span.start as u64, &mut text, end - 1);
    out.extend_from_slice(&text[start..])
}

/// The line of an attribute: its span, `attribute` and its name.
fn push_attribute(out: &mut Vec<u8>, attr: &Attr) -> Result<(), AllocError>
    ensures { OnOk result (out.new.items ≡ out.old.items ++ texts.attribute_line (attribute_of attr.now)) }
{
    push_span(out, attr.span)?;
    out.extend_from_slice(b"attribute ")?;
    out.extend_from_slice(attr.name)?;
    out.extend_from_slice(b"\n")
}

fn push_attributes(out: &mut Vec<u8>, attrs: &[Attr]) -> Result<(), AllocError>
    ensures { OnOk result (out.new.items ≡ out.old.items ++ flat_map texts.attribute_line (map attribute_of attrs.now)) }
{
    for attr in attrs {
        push_attribute(out, attr)?;
    }
    Ok(())
}

/// A span and its kind.
fn push_line(out: &mut Vec<u8>, span: Span, kind: &[u8]) -> Result<(), AllocError>
    ensures { OnOk result (out.new.items ≡ out.old.items ++ (texts.span_prefix span.start span.end ++ kind.now)) }
{
    push_span(out, span)?;
    out.extend_from_slice(kind)
}

/// A span, the kind of tag and its name.
fn push_tag(out: &mut Vec<u8>, span: Span, kind: &[u8], name: &[u8]) -> Result<(), AllocError>
    ensures { OnOk result (out.new.items ≡ out.old.items ++ texts.tag_line span.start span.end kind.now name.now) }
{
    push_line(out, span, kind)?;
    out.extend_from_slice(name)?;
    out.extend_from_slice(b"\n")
}

/// The lines of a unit: its span, its kind and the name of a tag, and then one for each attribute.
fn push_unit(out: &mut Vec<u8>, unit: &Unit) -> Result<(), AllocError>
    ensures { OnOk result (out.new.items ≡ out.old.items ++ texts.unit_lines (unit_of unit.now)) }
{
    match unit {
        Unit::Bom { span } => push_line(out, *span, b"bom\n"),
        Unit::Declaration { span, .. } => push_line(out, *span, b"declaration\n"),
        Unit::Doctype { span, .. } => push_line(out, *span, b"doctype\n"),
        Unit::Comment { span, .. } => push_line(out, *span, b"comment\n"),
        Unit::Text { span, .. } => push_line(out, *span, b"text\n"),
        Unit::StartTag { span, name, attrs } => {
            push_tag(out, *span, b"start ", name)?;
            push_attributes(out, attrs.as_slice())
        }
        Unit::EndTag { span, name } => push_tag(out, *span, b"end ", name),
        Unit::EmptyTag { span, name, attrs } => {
            push_tag(out, *span, b"empty ", name)?;
            push_attributes(out, attrs.as_slice())
        }
    }
}

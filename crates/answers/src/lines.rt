//! The lines that answers print.
ghost use Rattle.answers.specs.Lines as texts;
ghost use Rattle.std.specs.Prelude.{◌≡◌, ◌<◌, ◌++◌, decimal, length, OnOk};

use faults::FaultKind;
use itoa::Buffer;
use net_core::Rel;
use std::alloc::AllocError;
use tml_refs::{DocLink, Document};

/// Appends a number.
pub fn push_number(out: &mut Vec<u8>, n: u64) -> Result<(), AllocError>
    ensures { OnOk result (out.new.items ≡ out.old.items ++ decimal n) }
{
    let mut buffer = Buffer::new();
    out.extend_from_slice(buffer.format(n).as_bytes())
}

/// Appends a line: a word that ends in a space, and a number.
pub fn push_numbered(out: &mut Vec<u8>, word: &[u8], n: u64) -> Result<(), AllocError>
    ensures { OnOk result (out.new.items ≡ out.old.items ++ texts.numbered word.now n) }
{
    out.extend_from_slice(word)?;
    push_number(out, n)?;
    out.extend_from_slice(b"\n")
}

/// Appends a word that ends in a space, and then a number and a space.
pub fn push_prefix(out: &mut Vec<u8>, word: &[u8], n: u32) -> Result<(), AllocError>
    ensures { OnOk result (out.new.items ≡ out.old.items ++ texts.line_prefix word.now n) }
{
    out.extend_from_slice(word)?;
    push_number(out, u64::from(n))?;
    out.extend_from_slice(b" ")
}

/// Appends the line of a fault: its number, its name and its place.
pub fn push_fault(out: &mut Vec<u8>, kind: FaultKind, place: u32) -> Result<(), AllocError>
    ensures { OnOk result (out.new.items ≡ out.old.items ++ texts.fault_line kind place) }
{
    push_prefix(out, b"fault ", u32::from(kind.number()))?;
    out.extend_from_slice(kind.name())?;
    push_numbered(out, b" ", u64::from(place))
}

/// Appends a relation between two names.
pub fn push_related(out: &mut Vec<u8>, a: &[u8], rel: Rel, b: &[u8]) -> Result<(), AllocError>
    ensures { OnOk result (out.new.items ≡ out.old.items ++ texts.related a.now rel b.now) }
{
    out.extend_from_slice(a)?;
    out.push(b' ')?;
    out.extend_from_slice(rel.text())?;
    out.push(b' ')?;
    out.extend_from_slice(b)
}

/// Appends the line of a link of a document: its number, and its relation between the names of its intervals.
pub fn push_link(
    out: &mut Vec<u8>,
    k: u32,
    link: DocLink,
    document: &Document<'_>,
) -> Result<(), AllocError>
    requires a { link.a < length document.now.intervals }
    requires b { link.b < length document.now.intervals }
    ensures { OnOk result (out.new.items ≡ out.old.items ++ texts.link_line document.now.intervals k link) }
{
    push_prefix(out, b"tlink ", k)?;
    let a = document.interval(link.a).name();
    let b = document.interval(link.b).name();
    push_related(out, a, link.rel, b)?;
    out.extend_from_slice(b"\n")
}

//! The document of a drill.
ghost use Rattle.drill.specs.Numbers as spec;
ghost use Rattle.drill.specs.Numbers.{drawn, hidden_intervals, links_from, links_of};
ghost use Rattle.drill.specs.Texts as texts;
ghost use Rattle.net_core.specs.Limits.{max_intervals};
ghost use Rattle.std.specs.List.{flat_map};
ghost use Rattle.std.specs.Option.{option_to_list};
ghost use Rattle.std.specs.Prelude.{IfOk, OnOk, decimal, length, ◌*◌, ◌++◌, ◌+◌, ◌-◌, ◌<◌, ◌≡◌, ◌≤◌};

use crate::drawing::{Draws, hidden_intervals, link_between};
use itoa::Buffer;
use net_core::Ends;
use std::alloc::{AllocError, Global};
use tml_io::{List, Memory};
use tml_refs::DocLink;

/// The document of drill `n`: an event with an instance for each of `n` intervals, of 1 to `net_core::MAX_INTERVALS`, and from each but the
/// first up to three TLINKs to some before it. The intervals have hidden starts and ends that are drawn from `n`, and
/// the relation of each link holds of these, so the links can all be true.
///
/// # Errors
///
/// Out of memory.
pub fn drill_text(alloc: Global, n: u32) -> Result<List<u8>, Memory>
    requires some { 1 ≤ n }
    requires few { n ≤ max_intervals }
    ensures { IfOk result (λ text. text ≡ texts.drill_document n) }
{
    Ok(List::from_vec(document(alloc, n)?))
}

/// The text of the document of drill `n`.
fn document(alloc: Global, n: u32) -> Result<Vec<u8>, AllocError>
    requires some { 1 ≤ n }
    requires few { n ≤ max_intervals }
    ensures { IfOk result (λ text. text.items ≡ texts.drill_document n) }
{
    let mut draws = Draws::new(n);
    let hidden = hidden_intervals(alloc, n, &mut draws)?;
    let mut text = Vec::from_slice(alloc, b"<TimeML>\n")?;
    for i in 0..n {
        push_interval(&mut text, i)?;
    }
    push_links(&mut text, hidden.as_slice(), draws)?;
    text.extend_from_slice(b"</TimeML>\n")?;
    Ok(text)
}

/// Appends an event and its instance.
fn push_interval(out: &mut Vec<u8>, i: u32) -> Result<(), AllocError>
    ensures { OnOk result (out.new.items ≡ out.old.items ++ texts.drill_interval_lines i) }
{
    push_numbered(out, b"<EVENT eid=\"e", i)?;
    out.extend_from_slice(b"\" class=\"OCCURRENCE\">x</EVENT>\n")?;
    push_numbered(out, b"<MAKEINSTANCE eiid=\"ei", i)?;
    push_numbered(out, b"\" eventID=\"e", i)?;
    out.extend_from_slice(b"\"/>\n")
}

/// Appends the links of a drill, after the numbers for its intervals were drawn.
fn push_links(out: &mut Vec<u8>, hidden: &[Ends], mut draws: Draws) -> Result<(), AllocError>
    requires some { 1 ≤ length hidden.now }
    requires few { length hidden.now ≤ max_intervals }
    requires hidden { hidden.now ≡ hidden_intervals (length hidden.now) }
    requires draws { draws.last ≡ drawn (length hidden.now) (2 * length hidden.now) }
    requires within { draws.last < 65537 }
    ensures { OnOk result (out.new.items ≡ out.old.items ++ flat_map texts.drill_link_line (links_of (length hidden.now))) }
{
    for i in 1..hidden.len() as u32 {
        push_links_from(out, hidden, i, &mut draws)?;
    }
    Ok(())
}

/// Draws three intervals before one, and puts the links to them last.
fn push_links_from(
    out: &mut Vec<u8>,
    hidden: &[Ends],
    i: u32,
    draws: &mut Draws,
) -> Result<(), AllocError>
    requires some { 1 ≤ i }
    requires below { i < length hidden.now }
    requires few { length hidden.now ≤ max_intervals }
    requires hidden { hidden.now ≡ hidden_intervals (length hidden.now) }
    requires draws { draws.old.last ≡ drawn (length hidden.now) (2 * length hidden.now + 3 * (i - 1)) }
    requires within { draws.old.last < 65537 }
    ensures text { OnOk result (out.new.items ≡ out.old.items ++ flat_map texts.drill_link_line (links_from (length hidden.now) i)) }
    ensures draws { OnOk result (draws.new.last ≡ drawn (length hidden.now) (2 * length hidden.now + 3 * i)) }
    ensures still_within { draws.new.last < 65537 }
{
    for _ in 0..3_u32 {
        let j = draws.draw() % i;
        push_link_between(out, hidden, i, j)?;
    }
    Ok(())
}

/// Appends the link from an interval to one before it, where a relation holds between them.
fn push_link_between(out: &mut Vec<u8>, hidden: &[Ends], i: u32, j: u32) -> Result<(), AllocError>
    requires hidden { hidden.now ≡ hidden_intervals (length hidden.now) }
    requires i { i < length hidden.now }
    requires j { j < length hidden.now }
    ensures { OnOk result (out.new.items ≡ out.old.items ++ flat_map texts.drill_link_line (option_to_list (spec.link_between (length hidden.now) i j))) }
{
    match link_between(hidden, i, j) {
        Some(link) => push_link(out, link),
        None => Ok(()),
    }
}

/// Appends a TLINK.
fn push_link(out: &mut Vec<u8>, link: DocLink) -> Result<(), AllocError>
    ensures { OnOk result (out.new.items ≡ out.old.items ++ texts.drill_link_line link) }
{
    push_numbered(out, b"<TLINK eventInstanceID=\"ei", link.a)?;
    push_numbered(out, b"\" relatedToEventInstance=\"ei", link.b)?;
    out.extend_from_slice(b"\" relType=\"")?;
    out.extend_from_slice(link.rel.text())?;
    out.extend_from_slice(b"\"/>\n")
}

/// Appends a text and a number.
fn push_numbered(out: &mut Vec<u8>, text: &[u8], number: u32) -> Result<(), AllocError>
    ensures { OnOk result (out.new.items ≡ out.old.items ++ text.now ++ decimal number) }
{
    out.extend_from_slice(text)?;
    let mut buffer = Buffer::new();
    out.extend_from_slice(buffer.format(number).as_bytes())
}
